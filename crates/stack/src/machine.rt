//! The slices of a machine, as a call is lent them.

/// A machine: its sheet and the instructions compiled from it, which are read, and its four stores.
#[derive(Drop)]
pub struct Machine<'m> {
    pub sheet: &'m [u8],
    pub program: &'m [u32],
    pub rows: &'m mut [u32],
    pub names: &'m mut [u8],
    pub ids: &'m mut [u64],
    pub nodes: &'m mut [u16],
}
