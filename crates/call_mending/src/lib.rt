// No code: this crate holds what the decode calls leave of a frame that was mended from a line on.
#![tactic(auto)]
