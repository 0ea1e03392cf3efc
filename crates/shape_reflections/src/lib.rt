// Damped coefficients, and the step-down to reflection coefficients, E's operations in E's order.
#![tactic(auto)]

ghost use Rattle.std.specs.Prelude.{◌≡◌, ◌<◌, ◌≤◌};
ghost use Rattle.shape_reflections.specs.Reflections.{power, damped, row_below, reflections};

use std::array::from_fn;

// x to the e, by running squares, low bit first: four turns for the four bits, and no place of a list.
fn power_of(x: f32, e: usize) -> f32
    ensures { result ≡ power x e }
{
    let mut product = 1.0;
    let mut square = x;
    let mut rest = e;
    for _ in 0..4usize {
        if rest % 2 == 1 {
            product *= square;
        }
        square *= square;
        rest /= 2;
    }
    product
}

// Each coefficient times the power of the damping at its place.
pub fn damped_row(row: [f32; 9], damping: f32) -> [f32; 9]
    ensures { result ≡ damped row damping }
{
    from_fn(|k| row[k] * power_of(damping, k))
}

fn row_below(row: [f32; 9], k: usize) -> [f32; 9]
    requires { (0 < k) × (k ≤ 8) }
    ensures { result ≡ row_below row k }
{
    let rc = row[k];
    let e = 1.0 - rc * rc;
    from_fn(|n| {
        if 0 < n && n < k {
            (row[n] - rc * row[k - n]) / e
        } else {
            0.0
        }
    })
}

// The eight reflection coefficients of a row, the last first: each row comes of the one above it, by its number. The
// hint keeps the step-down in a function of its own, so that no call raises a division by zero (docs/DECISIONS.md,
// "Speed").
#[inline(never)]
pub fn reflected_row(row: [f32; 9]) -> [f32; 8]
    ensures { result ≡ reflections row }
{
    let mut rc = [0.0; 8];
    let mut down = row;
    for k in (1..9).rev() {
        rc[k - 1] = down[k];
        down = row_below(down, k);
    }
    rc
}
