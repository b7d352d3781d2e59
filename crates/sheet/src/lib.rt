//! The sheet checker: its trees and the whole sheet, refusals 1 to 7 and 13 with their places, and 8 to 12 of its records (01, sections 1 and 2).
#![tactic(auto)]

ghost use Rattle.std.specs.Prelude.{◌≡◌};
ghost use Rattle.meaning.specs.Trees.{size};
ghost use Rattle.node_records.specs.LengthFields.{HoldsLengthField};
ghost use Rattle.refusals.specs.Numbers.{judged};
ghost use Rattle.sheet.specs.Parser.{walk_of, tree_size, tree_at, parse_trees, checked_of, parse_sheet};

use cells::number_at;
use cells::numbers::{u16_at, u32_at};
use node_records::check_record;
use refusals::{Fault, SheetRefusal};

/// Where the first record stands: before it are the version, the length, the number of nodes and that of root nodes.
pub const HEADER_LENGTH: usize = 9;

const MAX_LENGTH: usize = 65536;

const MAX_NODES: usize = 1024;

/// How many levels of nodes a sheet may have.
pub const MAX_DEPTH: usize = 32;

// Where the next record is, and how many nodes came before it.
#[derive(Clone, Copy)]
struct Walked {
    next: usize,
    used: usize,
}

// The tree at `here`, with `depth` levels left, of a sheet of `total` nodes.
#[tactic(auto, unfolding(crate::specs::Parser::tree_at, crate::specs::Parser::parse_tree, crate::specs::Parser::walk_of))]
#[cycle(check_tree_check_trees)]
fn check_tree(s: &[u8], total: usize, depth: usize, here: Walked) -> Result<Walked, Fault>
    requires { HoldsLengthField s.now }
    ensures { judged result ≡ walk_of tree_size here.used (tree_at depth s.now total here.next here.used) }
{
    if depth == 0 {
        return Err(SheetRefusal::TooDeep.at(here.next));
    }
    if total <= here.used {
        return Err(SheetRefusal::MoreNodesThanSaid.at(here.next));
    }
    let links = check_record(s, here.next)?;
    let first = Walked {
        next: links.next,
        used: here.used + 1,
    };
    let middle = check_trees(s, total, depth - 1, links.children, first)?;
    check_trees(s, total, depth - 1, links.descendants, middle)
}

// `count` trees side by side, the first at `start`.
#[cycle(check_tree_check_trees)]
fn check_trees(
    s: &[u8],
    total: usize,
    depth: usize,
    count: usize,
    start: Walked,
) -> Result<Walked, Fault>
    requires { HoldsLengthField s.now }
    ensures { judged result ≡ walk_of size start.used (parse_trees depth s.now total count start.next start.used) }
{
    let mut here = start;
    for _ in 0..count {
        here = check_tree(s, total, depth, here)?;
    }
    Ok(here)
}

/// Any bytes are answered: good, or the first fault.
#[tactic(auto, unfolding(crate::specs::Parser::parse_sheet, crate::specs::Parser::checked_of, crate::specs::Parser::and_then, crate::specs::Parser::parse_end))]
pub fn check_sheet(s: &[u8]) -> Result<(), Fault>
    ensures { judged result ≡ checked_of (parse_sheet s.now) }
{
    if s.len() < HEADER_LENGTH {
        return Err(SheetRefusal::SheetTooShort.at(0));
    }
    if MAX_LENGTH < s.len() {
        return Err(SheetRefusal::SheetTooLong.at(0));
    }
    if number_at(s, 0) != 1 {
        return Err(SheetRefusal::WrongVersion.at(0));
    }
    if u32_at(s, 1) != s.len() {
        return Err(SheetRefusal::WrongLength.at(0));
    }
    let total = u16_at(s, 5);
    if MAX_NODES < total {
        return Err(SheetRefusal::TooManyNodes.at(0));
    }
    let roots = Walked {
        next: HEADER_LENGTH,
        used: 0,
    };
    let end = check_trees(s, total, MAX_DEPTH, u16_at(s, 7), roots)?;
    if end.next != s.len() || end.used != total {
        return Err(SheetRefusal::LeftOver.at(end.next));
    }
    Ok(())
}
