// No code: this crate holds demand 3 over a frame, and the law that any two filters of the table meet it.
#![tactic(auto)]
