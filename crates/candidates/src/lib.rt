//! The next live instruction whose name key fits a tag, among as many as a budget allows.
#![tactic(auto)]

ghost use Rattle.std.specs.Prelude.{◌≡◌, ◌+◌, ◌≤◌, ◌^◌, max};
ghost use Rattle.candidates.specs.Candidates.{Reached, affordable, first_keyed};

use cells::get;
use cursors::{Cursor, Live};

// The words of a row, of which one is the name key.
const ROW_WORDS: usize = 8;

const KEY: usize = 7;

// How many instructions of a range a budget allows; none of a range that ends past the limit.
#[tactic(auto, using(crate::proofs::Searches::none_past, crate::proofs::Searches::capped))]
fn stretch(at: usize, stop: usize, limit: u16, budget: usize) -> usize
    ensures { (result ≡ affordable limit at stop budget) × ((result ≤ budget) × (at + result ≤ max at (2 ^ 16))) }
{
    if (limit as usize) < stop {
        return 0;
    }
    stop.saturating_sub(at).min(budget)
}

// The first of so many instructions that has no name key or this one; the one after them if there is none. One word a row is read.
fn first_keyed(program: &[u32], key: u32, from: usize, count: usize) -> usize
    requires { from + count ≤ max from (2 ^ 16) }
    ensures { (result ≡ first_keyed program.now key from count) × ((from ≤ result) × (result ≤ from + count)) }
{
    let end = from + count;
    for a in from..end {
        let wanted = get(program, a * ROW_WORDS + KEY);
        if wanted == 0 || wanted == key {
            return a;
        }
    }
    end
}

// The cursor on the next instruction whose key fits, among as many as the budget allows, with the budget for what comes after it.
pub fn next_candidate<'p, 'n>(
    live: &Live<'p, 'n>,
    key: u32,
    from: Cursor,
    budget: usize,
) -> Option<(Cursor, usize)>
    ensures { Reached live.now.program.now live.now.nodes.now live.now.ranges key from budget result }
{
    let mut c = from;
    let mut left = budget;
    // Kept as it is: no index is counted, a budget is spent in stretches of any length, and a jump may end it.
    while 0 < left {
        let count = stretch(c.at, c.stop, live.ranges.limit, left);
        let a = first_keyed(live.program, key, c.at, count);
        if a < c.at + count {
            let found = Cursor { at: a, ..c };
            return Some((found, left - (a - c.at) - 1));
        }
        left -= count;
        c = c.jump(live)?;
    }
    None
}
