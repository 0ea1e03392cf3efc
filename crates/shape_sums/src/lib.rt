// The nine sums of a subband, one for each lag from 0 to 8: the products of lines so far apart. They are
// made side by side in one pass; each is added up in line order, as the definition has it, and lag 0 is
// the energy.
#![tactic(auto)]

ghost use Rattle.std.specs.Prelude.{◌≡◌, ◌+◌, ◌-◌, ◌≤◌, length};
ghost use Rattle.law_lists.specs.Places.{tab};
ghost use Rattle.shape_sums.specs.LagSums.{lag_sum};
ghost use Rattle.shape_sums.specs.PartialSums.{added_cell, sums_to};

// Adds a line's products with itself and the lines after it to the first m of the nine sums. The loops here count places,
// as `added_cell` and `sums_to` do: of two lines so far apart an iterator would give one, and the other by its place.
fn add_line(sums: &mut [f32; 9], lines: &[f32], n: usize, m: usize)
    requires { (m ≤ 9) × (n + m ≤ length lines.now) }
    ensures { sums.new ≡ tab (added_cell sums.old lines.now n m) 9 }
{
    for k in 0..m {
        sums[k] += lines[n] * lines[n + k];
    }
}

// The lines that have eight more after them: each has a product at every lag.
fn whole_sums(lines: &[f32]) -> [f32; 9]
    requires { 8 ≤ length lines.now }
    ensures { result ≡ sums_to lines.now (length lines.now - 8) }
{
    let mut sums = [0.0; 9];
    for n in 0..lines.len() - 8 {
        add_line(&mut sums, lines, n, 9);
    }
    sums
}

// The nine sums of a subband of eight lines or more: that is what it requires, and the subbands of every
// row have them (`LongRows` of shape_lags). Its last eight lines are a loop of known length, which the
// compiler lays out.
pub fn lag_sums(lines: &[f32]) -> [f32; 9]
    requires { 8 ≤ length lines.now }
    ensures { result ≡ tab (lag_sum lines.now) 9 }
{
    let mut sums = whole_sums(lines);
    for n in lines.len() - 8..lines.len() {
        add_line(&mut sums, lines, n, lines.len() - n);
    }
    sums
}
