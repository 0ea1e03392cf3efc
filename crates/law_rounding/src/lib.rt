// No code: this crate holds definitions and laws alone, of what an f32's rounding can cost.
#![tactic(auto)]
