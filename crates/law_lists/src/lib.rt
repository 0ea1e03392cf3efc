// No code: this crate holds definitions and laws alone, of lists that any layer above may cite.
#![tactic(auto)]
