// What the filters of a row do to a spectrum, for either lattice, and the laws of it: the decode calls
// and the encode call are its instances. The code is only that which cuts a row at a line.
#![tactic(auto)]

ghost use Rattle.std.specs.Prelude.{◌≡◌};
ghost use Rattle.lattice_rows.specs.Split.{EachNumber, row_below_line, row_from_line};

use row_bands::{Band, Row};

// A band with each of its numbers held on one side of a line.
fn each_number<F: Fn(usize) -> usize>(held: &F, band: Band) -> Band
    requires { F.IsAlwaysCallable held.now }
    ensures { EachNumber (F.post held.now) band result }
{
    Band {
        start: held(band.start),
        first_cut: held(band.first_cut),
        second_cut: held(band.second_cut),
        stop: held(band.stop),
    }
}

// The same of both bands of a row.
fn each_band<F: Fn(usize) -> usize>(held: F, row: Row) -> Row
    requires { F.IsAlwaysCallable held }
    ensures first { EachNumber (F.post held) row.first result.first }
    ensures second { EachNumber (F.post held) row.second result.second }
{
    Row {
        first: each_number(&held, row.first),
        second: each_number(&held, row.second),
    }
}

// The bands of a row as far as they lie below a line.
pub fn row_below_line(n: usize, row: Row) -> Row
    ensures { result ≡ row_below_line n row }
{
    each_band(|line| n.min(line), row)
}

// The bands of a row from a line on.
pub fn row_from_line(n: usize, row: Row) -> Row
    ensures { result ≡ row_from_line n row }
{
    each_band(|line| n.max(line), row)
}
