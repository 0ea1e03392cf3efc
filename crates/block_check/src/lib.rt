// The checks of a block of a narration, and what they answer. A block is judged by itself, so that a file
// of any length needs the memory of one.
#![tactic(auto)]

mod check;

pub use check::{BlockRefusal, check_block};
