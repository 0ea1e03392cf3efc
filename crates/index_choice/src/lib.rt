// The index of a number and the order of a filter's eight indices: what `apply_quantization` does in E,
// with a table in the place of the arcsine. The table comes from a sweep of the Rust
// (oracle/RESULTS.txt).
#![tactic(auto)]

ghost use Rattle.std.specs.Prelude.{◌≡◌, cond, ◌<◌, ltb, get_or};
ghost use Rattle.std.specs.Float.{nan};
ghost use Rattle.index_choice.specs.Indices.{index_of, order_of, not_above, thresholds};

const THRESHOLDS: [f32; 8] = [
    0.09226835, 0.27366298, 0.44573835, 0.6026346, 0.7390089, 0.8502171, 0.9324722, 0.98297316,
];

// The threshold at a place. The places stand in a `match`, so that the compiler keeps the table as a constant
// and does not write it out at each look. `place` is required to be one of the eight, which is known at each of
// the four looks, so that there is no answer to invent for a ninth.
fn threshold(place: u32) -> f32
    requires { place < 8 }
    ensures { result ≡ get_or thresholds place nan }
{
    match place {
        0 => THRESHOLDS[0],
        1 => THRESHOLDS[1],
        2 => THRESHOLDS[2],
        3 => THRESHOLDS[3],
        4 => THRESHOLDS[4],
        5 => THRESHOLDS[5],
        6 => THRESHOLDS[6],
        _ => THRESHOLDS[7],
    }
}

// `step` if the test holds, and 0 if not.
fn step_if(test: bool, step: u32) -> u32
    ensures { result ≡ cond test step 0 }
{
    if test { step } else { 0 }
}

// A look at a threshold: `step` if it is not above `x`, and 0 if it is. The thresholds rise, so it is not above
// `x` exactly if more than `place` of them are not. `place` is required as in `threshold`.
fn look(x: f32, place: u32, step: u32) -> u32
    requires { place < 8 }
    ensures { result ≡ cond (ltb place (not_above x thresholds)) step 0 }
{
    step_if(threshold(place) <= x, step)
}

// How many thresholds are not above `x`. Three looks halve the first seven, and the fourth is at the last. The
// steps are added up, so that nothing has to branch: no processor can foresee in which half a coefficient is.
fn not_above(x: f32) -> u32
    ensures { result ≡ not_above x thresholds }
{
    let by_fours = look(x, 3, 4);
    let by_twos = by_fours + look(x, by_fours + 1, 2);
    let by_ones = by_twos + look(x, by_twos, 1);
    by_ones + look(x, 7, 1)
}

// The index of a reflection coefficient, for every f32. The search goes by its size, and its sign, which cannot
// be foreseen either, decides only what becomes of the count. NaN is not at most 1, and counts as 0. Numbers
// stay as wide as an f32 up to the last line, so that the compiler can take several of a filter's eight side by
// side (docs/DECISIONS.md, "Speed"). With `x.abs()`, which tests for 0 too, an encoder call takes 3 to 7
// percent longer.
pub fn index_of(x: f32) -> u8
    ensures { result ≡ index_of x }
{
    let size = if x < 0.0 { -x } else { x };
    let count = step_if(size <= 1.0, not_above(size));
    let index = if x < 0.0 { 8 - count } else { 8 + count };
    index as u8
}

// The order of a filter: its last place whose index is not 8, counted from 1, or 0. A closure in `map_or` would have to
// require that the place is below 8; in the match that is known.
pub fn order_of(indices: [u8; 8]) -> u8
    ensures { result ≡ order_of indices }
{
    match indices.iter().rposition(|index| *index != 8) {
        Some(place) => place as u8 + 1,
        None => 0,
    }
}
