// What one filter costs, in 2048ths of a bit and in bits: E's `calc_bit_budget` of one filter, in whole
// numbers. It rests on the contracts of the tables alone. `index_costs` and `filter_cost` are lent T's costs,
// and require indices of at most 16: the caller has bound the costs and checked the indices. They take any
// weighting and any order.
#![tactic(auto)]

ghost use Rattle.std.specs.Prelude.{◌≡◌, ◌*◌, ◌≤◌, take};
ghost use Rattle.law_lists.specs.Every.{EachAtMost};
ghost use Rattle.cost_filter.specs.FilterCost.{index_costs, RoundedUp, FilterPriced};

use cost_tables::{IndexCosts, order_bits};

// What the indices below an order cost together, each at its place. Each cost is read before the order is
// looked at, so that no branch here depends on the order.
fn index_costs(costs: &IndexCosts, order: u8, indices: &[u8; 8]) -> u32
    requires { EachAtMost 16 indices.now }
    ensures { result ≡ index_costs (take order indices.now) }
{
    let mut sum = 0;
    for (place, index) in indices.iter().enumerate() {
        let cost = costs.coef_bits(place, *index);
        if place < order as usize {
            sum += cost as u32;
        }
    }
    sum
}

// The cost of one filter in 2048ths of a bit, without the bit that every filter has: its order's and that of
// its indices below the order. Nothing is rounded here; bits are `whole_bits` of it (C-15). It requires indices of at
// most 16, which whoever asks has checked.
#[tactic(auto, using(crate::proofs::FilterCosts::off_priced, crate::proofs::FilterCosts::filter_cost_at_most, crate::proofs::FilterCosts::filter_cost_affordable), unfolding(crate::specs::FilterCost::filter_cost, crate::specs::FilterCost::order_cost))]
pub fn filter_cost(costs: &IndexCosts, weighting: u8, order: u8, indices: &[u8; 8]) -> u32
    requires { EachAtMost 16 indices.now }
    ensures { FilterPriced weighting order indices.now result }
{
    if order == 0 {
        return 0;
    }
    order_bits(weighting, order) as u32 + index_costs(costs, order, indices)
}

// The bits of one filter's cost: the bit that says whether the filter is on, and the cost rounded up to
// whole bits. It requires a cost that a filter can have: whoever asks has it from `filter_cost`, of an
// order up to 8.
#[tactic(auto, unfolding(crate::specs::FilterCost::whole_bits))]
pub fn whole_bits(cost: u32) -> u16
    requires { cost ≤ 83 * 2048 }
    ensures { RoundedUp cost result }
{
    1 + ((cost + 2047) / 2048) as u16
}
