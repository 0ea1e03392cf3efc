// No code: this crate holds what every decode call checks of a frame with its side data, refusals 1 to 7, and
// the law over these checks, which decode, save and restart cite.
#![tactic(auto)]
