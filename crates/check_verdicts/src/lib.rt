// No code: this crate holds what a call answers, accepted or refused, and the laws of checks made one after
// the other. It knows no refusal of its own.
#![tactic(auto)]
