// One line through the decoder's lattice, in D's order of operations: each product, sum and difference
// rounds once and none is fused. The states go in and come back by value.
#![tactic(auto)]

ghost use Rattle.std.specs.Prelude.{◌≡◌, ◌<◌, ◌≤◌};
ghost use Rattle.lattice_decoder.specs.DecoderLattice.{line_decoded};
ghost use Rattle.lattice_decoder.specs.DecoderLattice.{decoder_idle};

use lattice_lines::{Lattice, Passed};

// The decoder's lattice.
#[derive(Clone, Copy, Debug, PartialEq, Eq)]
pub struct Decoder;

impl Lattice for Decoder {
    ghost passed = { line_decoded };

    ghost idle = { decoder_idle };

    #[tactic(auto, unfolding(crate::specs::DecoderLattice::line_decoded, crate::specs::DecoderLattice::stages_below, crate::specs::DecoderLattice::stage_down))]
    fn line(q: [f32; 8], order: usize, states: [f32; 8], line: f32) -> Passed {
        let last = order - 1;
        let mut state = states;
        let mut t = line - q[last] * state[last];
        // each stage takes the state of its own place and leaves one at the next
        for k in (0..last).rev() {
            let old = state[k];
            t = t - q[k] * old;
            state[k + 1] = q[k] * t + old;
        }
        state[0] = t;
        Passed { t, states: state }
    }
}
