//! How a run over a block of a trace begins and ends: its version, why it halts, the last line (01, section 8).
#![tactic(auto)]

ghost use Rattle.std.specs.Prelude.{◌≡◌, ◌+◌, ◌≤◌, length, IfSome};
ghost use Rattle.text.specs.Places.{IsBufferPlace};
ghost use Rattle.block_ends.specs.Places.{IsTracePlace};
ghost use Rattle.block_ends.specs.BlockEnds.{bad_fed, bad_out, cut_fed, cut_out, begin_of, no_version};

use lines::put_bad_trace;

// Why a run over a block ended: it wants more bytes, it wants room for lines, or the last word is said.
#[derive(Clone, Copy)]
pub enum Halt {
    Hungry,
    Full,
    Over,
}

// How many bytes of the block are used and how many of the buffer are written.
#[derive(Clone, Copy)]
pub struct Fed {
    pub used: usize,
    pub wrote: usize,
    pub halt: Halt,
}

// `bad trace` and the place of the record that starts at `at` of the block.
pub fn bad_trace(out: &mut [u8], at: usize, wrote: usize, place: u64) -> Fed
    requires { IsBufferPlace wrote × IsBufferPlace at × IsTracePlace place }
    ensures value { (result ≡ bad_fed place at wrote) × (out.new ≡ bad_out place at wrote out.old) }
    ensures used_value { (result.used ≡ at) × (result.wrote ≤ wrote + 34) }
{
    Fed {
        used: at,
        wrote: put_bad_trace(out, wrote, place + at as u64),
        halt: Halt::Over,
    }
}

// A record that is cut, or no version: faulty where no bytes come after it.
pub fn cut_short(out: &mut [u8], at: usize, wrote: usize, place: u64, last: bool) -> Fed
    requires { IsBufferPlace wrote × IsBufferPlace at × IsTracePlace place }
    ensures value { (result ≡ cut_fed last place at wrote) × (out.new ≡ cut_out last place at wrote out.old) }
    ensures used_value { (result.used ≡ at) × (result.wrote ≤ wrote + 34) }
{
    if last {
        return bad_trace(out, at, wrote, place);
    }
    Fed {
        used: at,
        wrote,
        halt: Halt::Hungry,
    }
}

// Where the first record of a block begins; the version stands at the trace's first byte.
#[tactic(auto, unfolding(crate::specs::BlockEnds::begin_of))]
pub fn first_record(block: &[u8], place: u64) -> Option<usize>
    ensures value { result ≡ begin_of block.now place }
    ensures inside { IfSome result (λ first. first ≤ length block.now) }
{
    if 0 < place {
        return Some(0);
    }
    match block {
        [1, ..] => Some(1),
        _ => None,
    }
}

// Whether a block without the version is at fault: only the version byte itself may still come.
pub fn no_version(block: &[u8], last: bool) -> bool
    ensures { result ≡ no_version block.now last }
{
    last || !block.is_empty()
}
