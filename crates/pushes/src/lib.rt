//! The push of an open element (StackItem): its name and ids, the found nodes that have trees, and its row.
#![tactic(auto)]

ghost use Rattle.std.specs.Prelude.{◌≡◌, ◌+◌, ◌<◌, ◌≤◌, ◌^◌, length};
ghost use Rattle.cells.specs.Numbers.{IsPlace};
ghost use Rattle.cells.specs.Stretches.{cells_from, written};
ghost use Rattle.stack.specs.Lent.{contents, SameLoans};
ghost use Rattle.stack.specs.Stores.{open_limit, parent_limit, ancestor_limit, found_limit, name_limit, id_words, opens, parents_top, ancestors_top, listed, with_row, pushed};
ghost use Rattle.pushes.specs.Kept.{kept};

use cells::{get, number_at, put};
use stack::blocks::has_block;
use stack::copies::copy;
use stack::machine::Machine;
use stack::{
    ANCESTORS, ANCESTORS_TOP, CHILD_BLOCK, DESCENDANT_BLOCK, ID_WORDS, NAME, OPENS, PAIRS_TOP,
    PARENTS_TOP, ROW, ROWS,
};

// Whether a node is among the n from a place on.
fn is_listed(nodes: &[u16], at: usize, n: usize, node: u16) -> bool
    requires { IsPlace at × IsPlace n }
    ensures { result ≡ listed node (cells_from nodes.now at n) }
{
    for j in 0..n {
        if node == get(nodes, at + j) {
            return true;
        }
    }
    false
}

// The found nodes that have trees in the block and are not among the `top` from `base` on, written behind these; the answer is where they end.
fn put_kept(
    nodes: &mut [u16],
    base: usize,
    top: usize,
    block: usize,
    program: &[u32],
    limit: usize,
    found: &[u16],
) -> usize
    requires { (base < 2 ^ 40) × (top < 2 ^ 40) × (block < 8) }
    ensures { let new = kept (cells_from nodes.old base top) program.now limit block found.now in (nodes.new ≡ written nodes.old (base + top) new) × (result ≡ base + top + length new) }
{
    let mut k = base + top;
    for node in found {
        if has_block(program, limit, block, *node) && !is_listed(nodes, base, top, *node) {
            put(nodes, k, *node);
            k += 1;
        }
    }
    k
}

// The row of a pushed element, with the tops before it; then the header, with those after it.
fn put_row(rows: &mut [u32], n: usize, k: usize, parents: usize, ancestors: usize)
    requires { (n < 2 ^ 16) × (k < 2 ^ 16) × (parents < 2 ^ 16) × (ancestors < 2 ^ 16) }
    ensures { rows.new ≡ with_row rows.old n k parents ancestors }
{
    let row = [
        n as u32,
        0,
        get(rows, PARENTS_TOP),
        get(rows, ANCESTORS_TOP),
        get(rows, PAIRS_TOP),
    ];
    let header = [k as u32, parents as u32, ancestors as u32];
    copy(&row, 0, 5, rows, ROWS + k * ROW);
    copy(&header, 0, 3, rows, 0);
}

// The push. The machine tests the bounds before: the header's as refusal 30, room for one more as 27.
pub fn push_item(machine: &mut Machine, limit: usize, name: &[u8], words: &[u64], found: &[u16])
    requires { (opens machine.old.rows.now < open_limit) × (parents_top machine.old.rows.now ≤ parent_limit) × (ancestors_top machine.old.rows.now ≤ ancestor_limit) × (length name.now ≤ name_limit) × (length words.now ≤ id_words) × (length found.now ≤ found_limit) }
    ensures pushed { contents machine.new ≡ pushed machine.old.program.now limit (contents machine.old) name.now words.now found.now }
    ensures lent { SameLoans machine.old machine.new }
{
    let rows = &mut *machine.rows;
    let k = number_at(rows, OPENS) + 1;
    let old = number_at(rows, ANCESTORS_TOP);
    let ancestors = put_kept(
        machine.nodes,
        ANCESTORS,
        old,
        DESCENDANT_BLOCK,
        machine.program,
        limit,
        found,
    ) - ANCESTORS;
    // No list to look through: each found node with child trees is a parent.
    let first = number_at(rows, PARENTS_TOP);
    let parents = put_kept(
        machine.nodes,
        first,
        0,
        CHILD_BLOCK,
        machine.program,
        limit,
        found,
    );
    copy(name, 0, name.len(), machine.names, k * NAME);
    copy(words, 0, words.len(), machine.ids, k * ID_WORDS);
    put_row(rows, name.len(), k, parents, ancestors);
}
