//! What one instruction says: its tests, and the ids of its node (program.rs: `Instruction`).
#![tactic(auto)]

pub mod ids;
pub mod instruction;
