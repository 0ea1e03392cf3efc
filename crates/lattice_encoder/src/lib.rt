// One line through the encoder's lattice, in E's order of operations: each product and sum rounds once
// and none is fused. The states go in and come back by value.
#![tactic(auto)]

ghost use Rattle.std.specs.Prelude.{◌≡◌, ◌<◌, ◌≤◌};
ghost use Rattle.lattice_encoder.specs.EncoderLattice.{stage_up, stages_to, entering, line_encoded, encoder_idle};

use lattice_lines::{Lattice, Passed};

// A line on its way: t and b, with the states as they are.
#[derive(Clone, Copy, Debug, PartialEq)]
pub struct Passing {
    pub t: f32,
    pub b: f32,
    pub states: [f32; 8],
}

#[tactic(auto, unfolding(crate::specs::EncoderLattice::stage_up))]
fn stage_up(p: Passing, q: f32, k: usize) -> Passing
    requires { k < 8 }
    ensures { result ≡ stage_up q k p }
{
    let old = p.states[k];
    let mut states = p.states;
    states[k] = p.b;
    // b before t: the other way round the loops of orders 2 to 6 take an instruction or two more.
    let b = q * p.t + old;
    let t = p.t + q * old;
    Passing { t, b, states }
}

#[tactic(auto, unfolding(crate::specs::EncoderLattice::stages_to))]
fn stages_up(q: [f32; 8], stages: usize, line: f32, states: [f32; 8]) -> Passing
    requires { stages < 8 }
    ensures { result ≡ stages_to q stages (entering line states) }
{
    let mut p = Passing {
        t: line,
        b: line,
        states,
    };
    // by number, as the definition has them: a stage takes the coefficient and the state of its place
    for k in 0..stages {
        p = stage_up(p, q[k], k);
    }
    p
}

// The encoder's lattice.
#[derive(Clone, Copy, Debug, PartialEq, Eq)]
pub struct Encoder;

impl Lattice for Encoder {
    ghost passed = { line_encoded };

    ghost idle = { encoder_idle };

    #[tactic(auto, unfolding(crate::specs::EncoderLattice::line_encoded))]
    fn line(q: [f32; 8], order: usize, states: [f32; 8], line: f32) -> Passed {
        let last = order - 1;
        let p = stages_up(q, last, line, states);
        let mut after = p.states;
        let t = p.t + q[last] * after[last];
        after[last] = p.b;
        Passed { t, states: after }
    }
}
