//! What is counted at each level: children, and names where types are counted (ChildCounter, TypedChildCounterMap).
#![tactic(auto)]

ghost use Rattle.std.specs.Prelude.{◌≡◌, ◌<◌, ◌≤◌, ◌^◌, cond, Some, None, IfSome, length, ◌+◌, ◌-◌, unwrap_or};
ghost use Rattle.cells.specs.Numbers.{IsPlace};
ghost use Rattle.stack.specs.Stores.{name_limit, holds_name, opens, pairs_top, row_word, pair_of, known, times_in, children, one_more, name_counted_rows, name_counted_names, counted_rows, counted_names};

use cells::{get, number_at, put};
use stack::copies::copy;
use stack::{
    CHILDREN, NAME, OPENS, PAIR, PAIR_NAMES, PAIRS, PAIRS_MARK, PAIRS_TOP, ROW, ROWS, TIMES,
};

// Whether so many bytes of a store are the name.
pub fn holds_name(names: &[u8], at: usize, n: usize, name: &[u8]) -> bool
    requires { IsPlace at }
    ensures { result ≡ holds_name names.now at n name.now }
{
    if n != name.len() {
        return false;
    }
    for (i, b) in name.iter().enumerate() {
        if *b != get(names, at + i) {
            return false;
        }
    }
    true
}

// The pair of the open level with the name.
pub fn find_pair(rows: &[u32], names: &[u8], name: &[u8]) -> Option<usize>
    ensures pair { result ≡ cond (known rows.now names.now name.now) (Some (pair_of rows.now names.now name.now)) None }
    ensures bound { IfSome result (λ i. i < 2 ^ 32) }
    // Where there is none, `pair_of` is where its search ends: the top, or a mark past the top in a damaged row.
    ensures place { let mark = row_word rows.now (opens rows.now) 4 in pair_of rows.now names.now name.now ≡ unwrap_or result (mark + (pairs_top rows.now - mark)) }
{
    let first = number_at(rows, ROWS + number_at(rows, OPENS) * ROW + PAIRS_MARK);
    let top = number_at(rows, PAIRS_TOP);
    for i in first..top {
        let n = number_at(rows, PAIRS + i * PAIR);
        if holds_name(names, (PAIR_NAMES + i) * NAME, n, name) {
            return Some(i);
        }
    }
    None
}

// Whether the name was counted at the open level.
pub fn is_known(rows: &[u32], names: &[u8], name: &[u8]) -> bool
    ensures { result ≡ known rows.now names.now name.now }
{
    find_pair(rows, names, name).is_some()
}

// How often it was.
pub fn times(rows: &[u32], names: &[u8], name: &[u8]) -> u32
    ensures { result ≡ times_in rows.now names.now name.now }
{
    match find_pair(rows, names, name) {
        Some(i) => get(rows, PAIRS + i * PAIR + TIMES),
        None => 0,
    }
}

// The children counted at the open level.
#[tactic(auto, unfolding(stack::specs::Stores::children))]
pub fn child_count(rows: &[u32]) -> u32
    ensures { result ≡ children rows.now }
{
    get(rows, ROWS + number_at(rows, OPENS) * ROW + CHILDREN)
}

// One more; a full cell stays as it is, so that no stored number can trap.
#[tactic(auto, unfolding(stack::specs::Stores::one_more))]
pub fn inc(n: u32) -> u32
    ensures { result ≡ one_more n }
{
    n.saturating_add(1)
}

// The pair of the name counts once more, or there is a new pair at the top.
fn count_name(rows: &mut [u32], names: &mut [u8], name: &[u8])
    requires { length name.now ≤ name_limit }
    ensures { (rows.new ≡ name_counted_rows rows.old names.old name.now) × (names.new ≡ name_counted_names rows.old names.old name.now) }
{
    match find_pair(rows, names, name) {
        Some(i) => {
            let again = inc(get(rows, PAIRS + i * PAIR + TIMES));
            put(rows, PAIRS + i * PAIR + TIMES, again);
        }
        None => {
            let top = number_at(rows, PAIRS_TOP);
            let pair = [name.len() as u32, 1];
            copy(&pair, 0, PAIR, rows, PAIRS + top * PAIR);
            put(rows, PAIRS_TOP, inc(top as u32));
            copy(name, 0, name.len(), names, (PAIR_NAMES + top) * NAME);
        }
    }
}

// A tag counts as a child of the open level and, where types are counted, under its name.
pub fn add_child(rows: &mut [u32], names: &mut [u8], name: &[u8], types: bool)
    requires { length name.now ≤ name_limit }
    ensures { (rows.new ≡ counted_rows types rows.old names.old name.now) × (names.new ≡ counted_names types rows.old names.old name.now) }
{
    let at = ROWS + number_at(rows, OPENS) * ROW + CHILDREN;
    let n = inc(get(rows, at));
    if types {
        count_name(rows, names, name);
    }
    put(rows, at, n);
}
