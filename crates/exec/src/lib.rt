//! What a tag runs through: the live instructions (mod.rs and program.rs, their exec functions).
#![tactic(auto)]

pub mod scan;
