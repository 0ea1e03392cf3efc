// No code: this crate holds the definition of a narration file, block by block, and the laws that tie
// reading and writing together.
#![tactic(auto)]
