//! The open elements (StackItem): the nearest with a name, the pop, and the ids of the top; the push is in `pushes`.
#![tactic(auto)]

ghost use Rattle.std.specs.Prelude.{◌≡◌, ◌<◌, ◌≤◌, [], ◌∷◌, None, Some, cond, eqb, unwrap_or, IfSome};
ghost use Rattle.stack.specs.Stores.{opens, nearest, popped_count, popped_rows, popped_ids, ids_of_top};

use cells::{get, number_at};
use counters::holds_name;
use stack::copies::copy;
use stack::{
    ANCESTORS_MARK, ANCESTORS_TOP, ID_WORDS, NAME, OPENS, PAIRS_MARK, PAIRS_TOP, PARENTS_MARK, ROW,
    ROWS,
};

// The nearest open element with the name; the first is 1.
pub fn find_open(rows: &[u32], names: &[u8], name: &[u8]) -> Option<usize>
    ensures found { unwrap_or result 0 ≡ nearest rows.now names.now name.now (opens rows.now) }
    ensures open { IfSome result (λ k. (0 < k) × (k ≤ opens rows.now)) }
{
    for k in (1..=number_at(rows, OPENS)).rev() {
        if holds_name(names, k * NAME, number_at(rows, ROWS + k * ROW), name) {
            return Some(k);
        }
    }
    None
}

// How many an end tag of the name pops.
pub fn count_popped(rows: &[u32], names: &[u8], name: &[u8]) -> usize
    ensures { (result ≡ popped_count rows.now names.now name.now) × (result ≤ opens rows.now) }
{
    match find_open(rows, names, name) {
        Some(k) => number_at(rows, OPENS) + 1 - k,
        None => 0,
    }
}

// The pop of the n innermost: their ids go out, the outermost first, and the header is as it was before that one came. That n are open, count_popped promises.
pub fn pop_items(rows: &mut [u32], ids: &[u64], n: usize, out: &mut [u64])
    requires { n ≤ opens rows.old }
    ensures { (rows.new ≡ popped_rows rows.old n) × (out.new ≡ popped_ids rows.old ids.now out.old n) }
{
    let k = number_at(rows, OPENS) - n;
    copy(ids, (k + 1) * ID_WORDS, n * ID_WORDS, out, 0);
    if n == 0 {
        return;
    }
    let row = ROWS + (k + 1) * ROW;
    let header = [
        k as u32,
        get(rows, row + PARENTS_MARK),
        get(rows, row + ANCESTORS_MARK),
        get(rows, row + PAIRS_MARK),
    ];
    copy(&header, 0, 4, rows, 0);
}

// The ids of the top open element, if there is one.
#[tactic(auto, unfolding(stack::specs::Stores::ids_of_top))]
pub fn top_ids(rows: &[u32], ids: &[u64]) -> Option<[u64; 2]>
    ensures { result ≡ cond (eqb (opens rows.now) 0) None (Some (ids_of_top rows.now ids.now (0 ∷ 0 ∷ []))) }
{
    let k = number_at(rows, OPENS);
    if k == 0 {
        return None;
    }
    let mut words = [0, 0];
    copy(ids, k * ID_WORDS, ID_WORDS, &mut words, 0);
    Some(words)
}
