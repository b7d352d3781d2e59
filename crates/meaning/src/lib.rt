//! All matter is in specs/ and proofs/: what selectors mean, a machine, and that it answers so. A crate needs one function.
#![tactic(auto)]

pub fn nothing() {}
