// No code: this crate holds what the decode call makes of what the encode call reports.
#![tactic(auto)]
