//! The ids of a set, and a match's line, put into a buffer as text (01, section 8).
#![tactic(auto)]

ghost use Rattle.std.specs.Prelude.{◌≡◌, ◌+◌, ◌*◌, ◌≤◌, length};
ghost use Rattle.id_sets.specs.Ids.{ids_of};
ghost use Rattle.text.specs.Places.{IsBufferPlace};
ghost use Rattle.text.specs.Text.{Wrote};
ghost use Rattle.match_lines.specs.MatchLines.{ids_text, match_line};

use cells::put;
use id_sets::next_id;
use text::{put_decimal, put_text};

// Each id of the set after a space, in rising order.
pub fn put_ids(out: &mut [u8], at: usize, words: &[u64]) -> usize
    requires { at ≤ 4294967400 }
    ensures wrote { Wrote out.old at (ids_text (ids_of words.now)) result out.new }
    ensures upper_bound { (result ≤ at + 1344 * length words.now) × (result ≤ at + 1376256) }
{
    let mut next = at;
    let mut from = 0;
    // Kept as it is: each id is found from the one before; an iterator of the set would be a second form of next_id.
    while let Some(id) = next_id(words, from) {
        put(out, next, b' ');
        next = put_decimal(out, next + 1, id as u64);
        from = id + 1;
    }
    next
}

// `match`, the ids, then `content` or `void`.
pub fn put_match(out: &mut [u8], at: usize, words: &[u64], content: bool) -> usize
    requires { IsBufferPlace at }
    ensures wrote { Wrote out.old at (match_line words.now content) result out.new }
    ensures upper_bound { result ≤ at + 14 + 1344 * length words.now }
{
    let mut next = put_text(out, at, b"match");
    next = put_ids(out, next, words);
    let end: &[u8] = if content { b" content\n" } else { b" void\n" };
    put_text(out, next, end)
}
