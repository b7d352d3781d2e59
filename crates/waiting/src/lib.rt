//! The waiting record: a tag that waits for its attributes, with the nodes found so far and the place to go on from.
#![tactic(auto)]

ghost use Rattle.std.specs.Prelude.{◌≡◌, ◌≤◌, length, get_or};
ghost use Rattle.cells.specs.Stretches.{written};
ghost use Rattle.stack.specs.Stores.{name_limit, found_limit, found_from, held_rows, held_name, held_found, released_rows, fresh_rows};

use cells::{number_at, put};
use stack::copies::copy;
use stack::{FOUND, HELD_FOUND, HELD_NAME, WAITS};

// What of a waiting tag stands in the header beside its name and nodes: its kind, and the place to go on from.
#[derive(Clone, Copy)]
pub struct Held {
    pub kind: u32,
    pub stage: u32,
    pub slot: u32,
    pub at: u32,
    pub stop: u32,
}

// A tag begins to wait.
pub fn hold(
    rows: &mut [u32],
    names: &mut [u8],
    nodes: &mut [u16],
    name: &[u8],
    found: &[u16],
    held: Held,
)
    requires { (length name.now ≤ name_limit) × (length found.now ≤ found_limit) }
    ensures { (rows.new ≡ held_rows rows.old name.now held.kind found.now held.stage held.slot held.at held.stop) × (names.new ≡ written names.old 0 name.now) × (nodes.new ≡ written nodes.old found_from found.now) }
{
    let record = [
        1,
        name.len() as u32,
        held.kind,
        found.len() as u32,
        held.stage,
        held.slot,
        held.at,
        held.stop,
    ];
    copy(&record, 0, 8, rows, WAITS);
    copy(name, 0, name.len(), names, 0);
    copy(found, 0, found.len(), nodes, FOUND);
}

// It waits no longer.
pub fn release(rows: &mut [u32])
    ensures { rows.new ≡ released_rows rows.old }
{
    put(rows, WAITS, 0);
}

// The name of the waiting tag; the answer is its length.
// Kept as it is: memory is fixed and cells past the store's end read as 0, so the name is no part of the store that a slice could lend; it is copied out.
pub fn held_name(rows: &[u32], names: &[u8], out: &mut [u8]) -> usize
    ensures { (result ≡ get_or rows.now 5 0) × (out.new ≡ written out.old 0 (held_name rows.now names.now)) }
{
    let n = number_at(rows, HELD_NAME);
    copy(names, 0, n, out, 0);
    n
}

// The nodes found so far; the answer is how many.
// Kept as it is: as for the name, cells past the store's end read as 0, so the nodes are copied out into a lent buffer.
pub fn held_found(rows: &[u32], nodes: &[u16], out: &mut [u16]) -> usize
    ensures { (result ≡ get_or rows.now 7 0) × (out.new ≡ written out.old 0 (held_found rows.now nodes.now)) }
{
    let n = number_at(rows, HELD_FOUND);
    copy(nodes, FOUND, n, out, 0);
    n
}

// The header and the root's row of a fresh machine, whatever the store held.
pub fn fresh_rows(rows: &mut [u32], mark: u32, sheet: u32, flags: u32)
    ensures { rows.new ≡ fresh_rows rows.old mark sheet flags }
{
    let header = [
        0, 0, 0, 0, 0, 0, 0, 0, 0, 0, 0, 0, mark, sheet, flags, 0, 0, 0, 0, 0, 0, 0, 0, 0,
    ];
    copy(&header, 0, 24, rows, 0);
}
