// No code: this crate holds examples that the checker works from the definitions of all layers below.
// It stands at the top, so that nothing is checked again with it.
#![tactic(auto)]
