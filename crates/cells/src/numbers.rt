//! Big-endian numbers in bytes (01, section 1). A byte past the end reads as 0.
ghost use Rattle.std.specs.Prelude.{◌≡◌, ◌<◌, ◌^◌};
ghost use Rattle.cells.specs.Numbers.{be16, be32, i32_at};

use crate::number_at;

// Kept as it is: std's from_be_bytes takes whole arrays, and a byte past the end has to read as 0 (`be16`, `be32`).
pub fn u16_at(s: &[u8], at: usize) -> usize
    ensures { (result ≡ be16 s.now at) × (result < 2 ^ 16) }
{
    if s.len() <= at {
        return 0;
    }
    number_at(s, at) * 256 + number_at(s, at + 1)
}

pub fn u32_at(s: &[u8], at: usize) -> usize
    ensures { (result ≡ be32 s.now at) × (result < 2 ^ 32) }
{
    if s.len() <= at {
        return 0;
    }
    u16_at(s, at) * 65536 + u16_at(s, at + 2)
}

// Two's complement.
#[tactic(auto, unfolding(crate::specs::Numbers::i32_at))]
pub fn i32_at(s: &[u8], at: usize) -> i32
    ensures { result ≡ i32_at s.now at }
{
    (u32_at(s, at) as u32).cast_signed()
}
