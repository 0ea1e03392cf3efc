// No code: this crate holds one law, of any two results that a contract allows for one input.
#![tactic(auto)]
