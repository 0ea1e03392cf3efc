// From the lags of a band to a predictor of order 8 and the error that it leaves: the recursion (Levinson
// and Durbin's), E's operations in E's order. A row of nine goes in by value and the next comes back.
#![tactic(auto)]

ghost use Rattle.std.specs.Prelude.{◌≡◌, ◌<◌, ◌≤◌};
ghost use Rattle.shape_recursion.specs.Recursion.{crossed, reflection, next_row, stepped, predicted};

use std::array::from_fn;

// A row of coefficients, and the error that it leaves.
#[derive(Clone, Copy, Debug, PartialEq)]
pub struct Predictor {
    pub row: [f32; 9],
    pub error: f32,
}

// A float sum is a counted loop, in E's order of operations (docs/DECISIONS.md). The step k is a number with its limit
// in each contract here: a type of its own would be taken apart again at every index.
#[tactic(auto, unfolding(crate::specs::Recursion::crossed))]
fn crossed_sum(r: [f32; 9], row: [f32; 9], k: usize) -> f32
    requires { k ≤ 8 }
    ensures { result ≡ crossed r row k k }
{
    let mut sum = 0.0;
    for n in 0..k {
        sum -= row[n] * r[k - n];
    }
    sum
}

#[tactic(auto, unfolding(crate::specs::Recursion::reflection))]
fn reflected(r: [f32; 9], p: Predictor, k: usize) -> f32
    requires { k ≤ 8 }
    ensures { result ≡ reflection r p k }
{
    let sum = crossed_sum(r, p.row, k);
    if p.error != 0.0 { sum / p.error } else { sum }
}

fn next_row(last: [f32; 9], rc: f32, k: usize) -> [f32; 9]
    requires { (0 < k) × (k ≤ 8) }
    ensures { result ≡ next_row last rc k }
{
    from_fn(|n| {
        if n == 0 {
            1.0
        } else if n < k {
            last[n] + rc * last[k - n]
        } else if n == k {
            rc
        } else {
            0.0
        }
    })
}

#[tactic(auto, unfolding(crate::specs::Recursion::stepped))]
fn next_step(r: [f32; 9], k: usize, p: Predictor) -> Predictor
    requires { (0 < k) × (k ≤ 8) }
    ensures { result ≡ stepped r k p }
{
    let rc = reflected(r, p, k);
    Predictor {
        row: next_row(p.row, rc, k),
        error: p.error * (1.0 - rc * rc),
    }
}

// The coefficients of order 8, and the error.
pub fn predict(r: [f32; 9]) -> Predictor
    ensures { result ≡ predicted r 8 }
{
    let start = Predictor {
        row: [1.0, 0.0, 0.0, 0.0, 0.0, 0.0, 0.0, 0.0, 0.0],
        error: r[0],
    };
    // Written out: with a loop an encoder call takes 3 to 21 percent more instructions.
    let p1 = next_step(r, 1, start);
    let p2 = next_step(r, 2, p1);
    let p3 = next_step(r, 3, p2);
    let p4 = next_step(r, 4, p3);
    let p5 = next_step(r, 5, p4);
    let p6 = next_step(r, 6, p5);
    let p7 = next_step(r, 7, p6);
    next_step(r, 8, p7)
}
