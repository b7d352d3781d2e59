//! The compiler (compiler.rs): a block is reserved for siblings; then for each node in turn its child block is placed with all below it, then its descendant block.
//! Comparison names are lower-cased when the Rust compiles them; here tests stay in the sheet, and `attribute_holds` of `node_tests` lower-cases a comparison's
//! name and not a name of kind 18 (E4).
#![tactic(auto)]

ghost use Rattle.std.specs.Prelude.{◌≡◌, length};
ghost use Rattle.refusals.specs.Numbers.{judged};
ghost use Rattle.sheet.specs.Places.{IsSheetPlace};
ghost use Rattle.sheet.specs.Parser.{parse_sheet};
ghost use Rattle.compiler.specs.Placing.{lay_at, lay_trees, Room, RecordsInside, records_use};
ghost use Rattle.compiler.specs.Compiler.{compiled_of, store_of};

use cells::number_at;
use cells::numbers::u16_at;
use node_records::Links;
use program::{ROW_WORDS, any_of_type, links_at, put_instruction};
use refusals::{Fault, SheetRefusal};
use sheet::{HEADER_LENGTH, MAX_DEPTH, check_sheet};

// Where the next record is, and the first address that is free.
#[derive(Clone, Copy)]
struct Placed {
    next: usize,
    free: usize,
}

// Is a test of kind 5 in one of `count` records, one after the other from `at` on?
fn uses_nth_of_type(s: &[u8], count: usize, at: usize) -> bool
    requires { IsSheetPlace (length s.now) × RecordsInside s.now count at }
    ensures { result ≡ records_use s.now count at }
{
    let mut here = at;
    for _ in 0..count {
        let end = here + 2 + u16_at(s, here);
        let counts = here + 3 + number_at(s, here + 2);
        if any_of_type(s, end, number_at(s, counts), counts + 6) {
            return true;
        }
        here = end;
    }
    false
}

// The node whose record is at `here`, into its slot, all below it from what is free on.
#[cycle(compile_node_compile_nodes)]
fn compile_node(s: &[u8], store: &mut [u32], depth: usize, slot: usize, here: Placed) -> Placed
    requires s_len_bound { IsSheetPlace (length s.now) }
    requires room { Room s.now depth 1 here.next slot here.free }
    ensures next_value { result.next ≡ (lay_at depth s.now here.next slot here.free store.old).next }
    ensures free_value { result.free ≡ (lay_at depth s.now here.next slot here.free store.old).free }
    ensures store_after { store.new ≡ (lay_at depth s.now here.next slot here.free store.old).store }
{
    let Links {
        next,
        children,
        descendants,
    } = links_at(s, here.next);
    let first = Placed {
        next,
        free: here.free + children,
    };
    let c = compile_nodes(s, store, depth - 1, children, here.free, first);
    let middle = Placed {
        next: c.next,
        free: c.free + descendants,
    };
    let d = compile_nodes(s, store, depth - 1, descendants, c.free, middle);
    put_instruction(s, store, slot, here.next, here.free, c.free);
    d
}

// `count` nodes side by side, into a block that is reserved from `slot` on.
#[cycle(compile_node_compile_nodes)]
fn compile_nodes(
    s: &[u8],
    store: &mut [u32],
    depth: usize,
    count: usize,
    slot: usize,
    start: Placed,
) -> Placed
    requires s_len_bound { IsSheetPlace (length s.now) }
    requires room { Room s.now depth count start.next slot start.free }
    ensures next_value { result.next ≡ (lay_trees depth s.now count start.next slot start.free store.old).next }
    ensures free_value { result.free ≡ (lay_trees depth s.now count start.next slot start.free store.old).free }
    ensures store_after { store.new ≡ (lay_trees depth s.now count start.next slot start.free store.old).store }
{
    let mut here = start;
    for to in slot..slot + count {
        here = compile_node(s, store, depth, to, here);
    }
    here
}

/// Checks the sheet and compiles it into the store, whatever that held, and says whether nth-of-type is in use; or the first fault, of the room in the store last.
pub fn compile(s: &[u8], store: &mut [u32]) -> Result<bool, Fault>
    ensures value { judged result ≡ compiled_of (parse_sheet s.now) store.old }
    ensures store_after { store.new ≡ store_of (parse_sheet s.now) store.old }
{
    check_sheet(s)?;
    let nodes = u16_at(s, 5);
    if store.len() / ROW_WORDS < nodes {
        return Err(SheetRefusal::ProgramTooShort.at(0));
    }
    let roots = u16_at(s, 7);
    let first = Placed {
        next: HEADER_LENGTH,
        free: roots,
    };
    compile_nodes(s, store, MAX_DEPTH, roots, 0, first);
    Ok(uses_nth_of_type(s, nodes, HEADER_LENGTH))
}
