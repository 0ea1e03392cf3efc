// The costs of T, `temporal_noise_shaping_tables.rs`, and how a number is read out of one of its tables.
// Layers above rely on these contracts alone. The lookups of a number and of an order take any numbers and
// answer 0 outside their table.
#![tactic(auto)]

ghost use Rattle.std.specs.Prelude.{◌≡◌, ◌<◌};
ghost use Rattle.cost_tables.specs.Tables.{cell, in_one_run, of_order, order_bits, coef_bits};

const AC_TNS_ORDER_BITS: [[u16; 8]; 2] = [
    [17234, 13988, 11216, 8694, 6566, 4977, 3961, 3040],
    [12683, 9437, 6874, 5541, 5121, 5170, 5359, 5056],
];

// T's eight rows of seventeen in one run: what index i costs at place k is at 17k + i (C-17).
const AC_TNS_COEF_BITS: [u16; 136] = [
    // place 0
    20480, 15725, 12479, 10334, 8694, 7320, 6964, 6335, 5504, 5637, 6566, 6758, 8433, 11348, 15186,
    20480, 20480,
    // place 1
    20480, 20480, 20480, 20480, 12902, 9368, 7057, 5901, 5254, 5485, 5598, 6076, 7608, 10742,
    15186, 20480, 20480,
    // place 2
    20480, 20480, 20480, 20480, 13988, 9368, 6702, 4841, 4585, 4682, 5859, 7764, 12109, 20480,
    20480, 20480, 20480,
    // place 3
    20480, 20480, 20480, 20480, 18432, 13396, 8982, 4767, 3779, 3658, 6335, 9656, 13988, 20480,
    20480, 20480, 20480,
    // place 4
    20480, 20480, 20480, 20480, 20480, 14731, 9437, 4275, 3249, 3493, 8483, 13988, 17234, 20480,
    20480, 20480, 20480,
    // place 5
    20480, 20480, 20480, 20480, 20480, 20480, 12902, 4753, 3040, 2953, 9105, 15725, 20480, 20480,
    20480, 20480, 20480,
    // place 6
    20480, 20480, 20480, 20480, 20480, 20480, 12902, 3821, 3346, 3000, 12109, 20480, 20480, 20480,
    20480, 20480, 20480,
    // place 7
    20480, 20480, 20480, 20480, 20480, 20480, 15725, 3658, 20480, 1201, 10854, 18432, 20480, 20480,
    20480, 20480, 20480,
];

// The number of a table at a row and a column, or 0 outside the table. With `map_or` or `and_then` in place of the match
// the proof did not close.
pub fn cell<const ROWS: usize, const COLUMNS: usize>(
    table: &[[u16; COLUMNS]; ROWS],
    row: usize,
    column: usize,
) -> u16
    ensures { result ≡ cell table.now row column }
{
    match table.get(row) {
        Some(columns) => columns.get(column).copied().unwrap_or(0),
        None => 0,
    }
}

// The number of an order table, whose columns begin at order 1.
#[tactic(auto, unfolding(crate::specs::Tables::of_order))]
pub fn of_order(table: &[[u16; 8]; 2], weighting: u8, order: u8) -> u16
    ensures { result ≡ of_order table.now weighting order }
{
    if order == 0 {
        return 0;
    }
    cell(table, weighting as usize, order as usize - 1)
}

// What an order costs, in 2048ths of a bit.
pub fn order_bits(weighting: u8, order: u8) -> u16
    ensures { result ≡ of_order order_bits weighting order }
{
    of_order(&AC_TNS_ORDER_BITS, weighting, order)
}

// What the indices cost, in one run. Whoever has a value of this type has T's costs.
#[derive(Clone, Copy)]
pub struct IndexCosts {
    pub run: [u16; 136],
    pub ghost its: { run ≡ in_one_run coef_bits },
}

impl IndexCosts {
    // What an index costs at a place, in 2048ths of a bit. It requires a place and an index that T has:
    // whoever asks has checked both.
    #[tactic(auto, using(crate::proofs::InOneRun::run_at))]
    pub fn coef_bits(&self, place: usize, index: u8) -> u16
        requires { (place < 8) × (index < 17) }
        ensures { result ≡ cell coef_bits place index }
    {
        self.run[17 * place + index as usize]
    }
}

// T's costs. The compiler copies a constant to the stack wherever it is read at a position that it does not
// know, so whoever looks up several costs binds them once and lends them.
#[tactic(auto, unfolding(crate::specs::Tables::in_one_run))]
pub fn coef_costs() -> IndexCosts
    ensures { result.run ≡ in_one_run coef_bits }
{
    IndexCosts {
        run: AC_TNS_COEF_BITS,
    }
}
