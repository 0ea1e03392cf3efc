// The one place that decides refusals 1 and 2, for all that have a frame's codes, and 4 to 7, for all that
// have side data.
#![tactic(auto)]

mod codes;

ghost use Rattle.std.specs.Prelude.{◌≡◌, true, is_none, ◌≤◌, IfOk};
ghost use Rattle.check_limits.specs.LowestOver.{lowest_over};
ghost use Rattle.check_verdicts.specs.Verdicts.{no_fault, verdict_by, on_accepted};
ghost use Rattle.check_refusals.specs.Refusals.{says};
ghost use Rattle.check_side.specs.Sides.{side_checks};

use check_limits::{Over, lowest_over};
use check_refusals::Refusal;
pub use codes::check_codes;

// Side data that no check refuses: how many filters are counted, the order of each filter, and the indices of
// the first, then of the second. Orders and indices are in range whether a filter uses them or not.
#[derive(Clone, Copy)]
pub struct CheckedSide {
    pub filters: u8,
    pub orders: [u8; 2],
    pub indices: [u8; 16],
    ghost few: { filters ≤ 2 },
    ghost orders_fine: { is_none (lowest_over 8 0 orders) ≡ true },
    ghost indices_fine: { is_none (lowest_over 16 0 indices) ≡ true },
}

// Filters, orders and indices come one by one here and at the doors, as C gives them; whoever goes on from an accepted
// check has them as one value.
//
// The checks of side data that decode and cost share: refusals 4 to 7, in number order, the first
// standing. It is put into each call: handed back through memory, what it answers would cost a decoder call
// without a filter a tenth more instructions.
#[tactic(auto, unfolding(crate::specs::Sides::side_checks))]
#[inline(always)]
pub fn check_side(filters: u8, orders: &[u8], indices: &[u8]) -> Result<CheckedSide, Refusal>
    ensures checked { on_accepted (λ _. tt) (verdict_by says result) ≡ side_checks filters orders.now indices.now no_fault }
    ensures given { IfOk result (λ side. (side.filters ≡ filters) × (side.orders ≡ orders.now) × (side.indices ≡ indices.now)) }
{
    let (Some(orders), Some(indices)) = (orders.as_array::<2>(), indices.as_array::<16>()) else {
        return Err(Refusal::ListLength);
    };
    if filters > 2 {
        return Err(Refusal::FilterCount);
    }
    if let Some(Over { place, found }) = lowest_over(orders, 8) {
        return Err(Refusal::Order { place, found });
    }
    if let Some(Over { place, found }) = lowest_over(indices, 16) {
        return Err(Refusal::Index { place, found });
    }
    let side = CheckedSide {
        filters,
        orders: *orders,
        indices: *indices,
    };
    Ok(side)
}
