// What both lattices, the decoder's and the encoder's, have in common: what a line becomes, and the laws of
// lines that are taken through either. They know nothing of side data: coefficients, an order and eight
// states go in, and the states come back.
#![tactic(auto)]

ghost use Rattle.std.specs.Prelude.{◌≡◌, ◌<◌, ◌≤◌};
ghost use Rattle.lattice_lines.specs.Lattice.{Lattice, Idle};

// A line's t, with the states as they are: on its way through the decoder's stages, or past either
// lattice.
#[derive(Clone, Copy, Debug, PartialEq)]
pub struct Passed {
    pub t: f32,
    pub states: [f32; 8],
}

// A lattice, as a type with no value: lattice_decoder and lattice_encoder have one each, and lattice_bands
// takes the lines of a band through either.
pub trait Lattice {
    // What a line becomes, and the states after it.
    ghost passed: { Lattice };

    // One line through a filter. It requires an order of 1 to 8: lattice_bands calls it for each of them, by
    // a literal. Coefficients, order and states stand one by one, as in the definitions, and the order is a number
    // with its limit: a trait's method has no const parameter yet.
    fn line(q: [f32; 8], order: usize, states: [f32; 8], line: f32) -> Passed
        requires { (0 < order) × (order ≤ 8) }
        ensures { result ≡ passed q order states line };

    // A filter of order 0 changes neither line nor states.
    ghost idle: { Idle passed };
}
