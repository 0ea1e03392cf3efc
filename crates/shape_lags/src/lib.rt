// The autocorrelation of a band at lags 0 to 8, from the sums of its three subbands.
#![tactic(auto)]

ghost use Rattle.std.specs.Prelude.{◌≡◌, ◌<◌, length};
ghost use Rattle.std.specs.Float.Ieee.{eq};
ghost use Rattle.law_lists.specs.Places.{at, tab};
ghost use Rattle.law_rounding.specs.Floats.{◌⊗◌, ◌⊘◌, f0};
ghost use Rattle.shape_lags.specs.Autocorrelation.{where_silent, autocorrelation};
ghost use Rattle.shape_lags.specs.LongBands.{Long};
ghost use Rattle.shape_lags.specs.LagCells.{plain_cell, lag_cell};

use row_bands::Band;
use shape_sums::lag_sums;
use std::array::from_fn;

const LAG_WINDOW: [f32; 9] = [
    1.0,
    0.9980280260203829,
    0.9921354055113971,
    0.9823915844707989,
    0.9689107911912967,
    0.9518498073692735,
    0.9314049334023056,
    0.9078082299969592,
    0.8813231366694713,
];

// What a subband adds to a lag: ac/es.
fn quotient(sums: [f32; 9], k: usize) -> f32
    requires { k < 9 }
    ensures { result ≡ at sums k ⊘ at sums 0 }
{
    sums[k] / sums[0]
}

fn silent_lag(k: usize) -> f32
    ensures { result ≡ where_silent k }
{
    if k == 0 { 3.0 } else { 0.0 }
}

// One lag from the sums of the three subbands, before the window.
fn plain_lag(silent: bool, a: [f32; 9], b: [f32; 9], c: [f32; 9], k: usize) -> f32
    requires { k < 9 }
    ensures { result ≡ plain_cell silent a b c k }
{
    if silent {
        silent_lag(k)
    } else {
        0.0 + quotient(a, k) + quotient(b, k) + quotient(c, k)
    }
}

// The lags from the sums of the three subbands.
fn lags_of(a: [f32; 9], b: [f32; 9], c: [f32; 9]) -> [f32; 9]
    ensures { result ≡ tab (lag_cell (eq (at a 0 ⊗ at b 0 ⊗ at c 0) f0) a b c) 9 }
{
    let silent = a[0] * b[0] * c[0] == 0.0;
    from_fn(|k| plain_lag(silent, a, b, c, k) * LAG_WINDOW[k])
}

// The nine lags of a band. Its three subbands have eight lines or more, all of them there: that is what
// it requires, the bands of every row keep it, and the encode call has checked that the row's lines are
// there.
pub fn autocorrelated(lines: &[f32], band: Band) -> [f32; 9]
    requires { Long band (length lines.now) }
    ensures { result ≡ autocorrelation band lines.now }
{
    let a = lag_sums(&lines[band.start..band.first_cut]);
    let b = lag_sums(&lines[band.first_cut..band.second_cut]);
    let c = lag_sums(&lines[band.second_cut..band.stop]);
    lags_of(a, b, c)
}
