// The call for a rate planner (C-15): the cost call, which also tells what each filter costs in 2048ths of a
// bit, before it is rounded. Whoever adds up the side data of many frames rounds their sum once, and loses no
// part of a bit at each filter.
#![tactic(auto)]

ghost use Rattle.std.specs.Prelude.{◌≡◌};
ghost use Rattle.check_side.specs.Sides.{SoundSide};
ghost use Rattle.cost_call.specs.Cost.{cost_of};
ghost use Rattle.cost_parts.specs.Parts.{parts_of, Planned};

use check_refusals::Refusal;
use cost_call::cost;
use cost_filter::filter_cost;
use cost_tables::coef_costs;
use std::array::from_fn;

// The costs of both filters of side data that the cost call has accepted; a filter that is not counted has 0. It takes
// them as they came, since the cost call, which is asked first, hands no checked ones back.
fn two_costs(weighting: u8, filters: u8, orders: &[u8], indices: &[u8]) -> [u32; 2]
    requires { SoundSide filters orders.now indices.now }
    ensures { result ≡ parts_of weighting filters orders.now indices.now }
{
    let costs = coef_costs();
    let (eights, _) = indices.as_chunks::<8>();
    from_fn(|filter| {
        if filter < filters as usize {
            filter_cost(&costs, weighting, orders[filter], &eights[filter])
        } else {
            0
        }
    })
}

// The cost of a frame's side data, for any numbers and lists of any lengths: what `cost` answers, and beside
// it the 2048ths of each filter. A refused call writes nothing. The answer is `cost`'s own, so its refusals
// and its bits are found in one place; the costs are looked up once more for the parts (docs/DECISIONS.md).
#[tactic(auto, using(crate::proofs::Planned::sound_if_priced))]
pub fn cost_2048ths(
    weighting: u8,
    filters: u8,
    orders: &[u8],
    indices: &[u8],
    parts: &mut [u32; 2],
) -> Result<u16, Refusal>
    ensures { Planned filters (cost_of weighting filters orders.now indices.now) (parts_of weighting filters orders.now indices.now) parts.old parts.new result }
{
    let bits = cost(weighting, filters, orders, indices)?;
    *parts = two_costs(weighting, filters, orders, indices);
    Ok(bits)
}
