//! Lines that answer the calls of a library case: a machine made, sets of ids, the id set asked.
#![tactic(auto)]

ghost use Rattle.std.specs.Prelude.{◌≡◌, ◌+◌, ◌*◌, ◌≤◌, ◌<◌, length};

use lines::{put_refused, put_sheet_refused};
use making::Unmade;
use match_lines::put_ids;
use refusals::Refusal;
use text::put_text;

pub fn put_made(out: &mut [u8], at: usize, made: Result<(), Unmade>) -> usize
    requires { at ≤ 4294967296 }
    ensures { result ≤ at + 4096 }
{
    match made {
        Ok(()) => put_text(out, at, b"made\n"),
        Err(Unmade::Sheet(fault)) => put_sheet_refused(
            out,
            at,
            fault.refusal.number(),
            fault.place,
        ),
        Err(Unmade::Refused(refusal)) => put_refused(out, at, refusal.number()),
    }
}

// The ids of a set, on a line.
fn put_set(out: &mut [u8], at: usize, words: &[u64; 2]) -> usize
    requires { at ≤ 4294967296 }
    ensures { result ≤ at + 4096 }
{
    let mut next = put_text(out, at, b"ids");
    next = put_ids(out, next, words);
    put_text(out, next, b"\n")
}

// The ids of each popped element, a line each, as long as there is room for lines.
pub fn put_sets(out: &mut [u8], at: usize, popped: &[u64], answer: Result<usize, Refusal>) -> usize
    requires { at ≤ 139264 }
    ensures { result ≤ 143360 }
{
    let Ok(n) = answer else {
        return at;
    };
    let (sets, _) = popped.as_chunks::<2>();
    let mut next = at;
    for words in &sets[..n.min(sets.len())] {
        if 131072 < next {
            return next;
        }
        next = put_set(out, next, words);
    }
    next
}

pub fn put_top(out: &mut [u8], at: usize, top: Result<Option<[u64; 2]>, Refusal>) -> usize
    requires { at ≤ 131072 }
    ensures { result ≤ 143360 }
{
    match top {
        Ok(Some(words)) => put_set(out, at, &words),
        Ok(None) => put_text(out, at, b"nothing open\n"),
        Err(refusal) => put_refused(out, at, refusal.number()),
    }
}
