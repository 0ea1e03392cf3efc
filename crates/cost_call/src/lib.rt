// The cost call: what the side data of a frame cost in bits, E's `calc_bit_budget` in whole numbers,
// behind a door that checks its input first. It knows nothing of frames.
#![tactic(auto)]

ghost use Rattle.std.specs.Prelude.{◌≡◌};
ghost use Rattle.cost_call.specs.Cost.{counted_bits, cost_of, Priced};

use check_refusals::Refusal;
use check_side::{CheckedSide, check_side};
use cost_filter::{filter_cost, whole_bits};
use cost_tables::coef_costs;

// The bits of the counted filters of side data that the cost call has checked, or that the analysis of a
// frame has made: each filter's cost is rounded up on its own. If both filters are off, each costs its one
// bit and nothing is looked up. If not, the costs are bound once and lent for each filter. The hint keeps the compiler
// from putting this into the programs that read and write files, which it makes slower (docs/DECISIONS.md, "Speed").
#[inline(never)]
pub fn counted_bits(weighting: u8, side: &CheckedSide) -> u16
    ensures { result ≡ counted_bits weighting side.now.filters side.now.orders side.now.indices }
{
    if side.orders[0] == 0 && side.orders[1] == 0 {
        return side.filters as u16;
    }
    let costs = coef_costs();
    let counted = &side.orders[..side.filters as usize];
    let (eights, _) = side.indices.as_chunks::<8>();
    let mut bits = 0;
    for (order, eight) in counted.iter().zip(eights) {
        let cost = filter_cost(&costs, weighting, *order, eight);
        bits += whole_bits(cost);
    }
    bits
}

// The cost of a frame's side data, for any numbers and lists of any lengths: refusals 4 to 8, or the
// bits.
#[tactic(auto, using(check_side::proofs::Sides::sound_side, crate::proofs::CostAnswers::refused_early, crate::proofs::CostAnswers::refused_late, crate::proofs::CostAnswers::bits_stand))]
pub fn cost(weighting: u8, filters: u8, orders: &[u8], indices: &[u8]) -> Result<u16, Refusal>
    ensures { Priced (cost_of weighting filters orders.now indices.now) result }
{
    let side = check_side(filters, orders, indices)?;
    if weighting > 1 {
        return Err(Refusal::Weighting);
    }
    Ok(counted_bits(weighting, &side))
}
