// No code: this crate holds the exact lattice over whole numbers, and the laws that hold the encoder's
// lattice near it, of any coefficients that are factors. It knows nothing of rows and side data.
#![tactic(auto)]
