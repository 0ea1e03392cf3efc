// The lines of a band through a lattice, the decoder's or the encoder's: one code for both. Each line goes
// through as lattice_decoder or lattice_encoder has it; the states go from line to line, in and back by
// value.
#![tactic(auto)]

ghost use Rattle.std.specs.Prelude.{◌<◌, ◌≤◌, min};
ghost use Rattle.lattice_lines.specs.Lattice.{Filtered};

use lattice_lines::Lattice;

// The lines of a band in place, upwards. It answers the states after them.
#[tactic(auto, using(lattice_lines::proofs::BandLines::all_lines))]
fn lines_filtered<L: Lattice>(
    q: [f32; 8],
    order: usize,
    states: [f32; 8],
    lines: &mut [f32],
) -> [f32; 8]
    requires { (0 < order) × (order ≤ 8) }
    ensures { Filtered L.passed q order states lines.old result lines.new }
{
    let mut state = states;
    for line in lines.iter_mut() {
        let p = L::line(q, order, state, *line);
        state = p.states;
        *line = p.t;
    }
    state
}

// One filter over the lines of its band. The lattice has eight stages: an order beyond 8 runs them
// all, and no door hands one on. Each order is a literal in its call, so that the compiler can lay the
// stages of each out: with the order as it comes it would not.
pub fn band_filtered<L: Lattice>(
    q: [f32; 8],
    order: u8,
    states: [f32; 8],
    lines: &mut [f32],
) -> [f32; 8]
    ensures { Filtered L.passed q (min order 8) states lines.old result lines.new }
{
    match order {
        0 => states,
        1 => lines_filtered::<L>(q, 1, states, lines),
        2 => lines_filtered::<L>(q, 2, states, lines),
        3 => lines_filtered::<L>(q, 3, states, lines),
        4 => lines_filtered::<L>(q, 4, states, lines),
        5 => lines_filtered::<L>(q, 5, states, lines),
        6 => lines_filtered::<L>(q, 6, states, lines),
        7 => lines_filtered::<L>(q, 7, states, lines),
        _ => lines_filtered::<L>(q, 8, states, lines),
    }
}
