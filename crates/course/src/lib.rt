//! What a start tag is and what it matches (01, section 4; mod.rs): its kind, its positions, the live instructions, and the two scans over them. The stores are only read.
#![tactic(auto)]

ghost use Rattle.std.specs.Prelude.{◌≡◌, ◌≤◌, length, get_or};
ghost use Rattle.cells.specs.Stretches.{written};
ghost use Rattle.exec.specs.Scans.{answer_from, found_in};
ghost use Rattle.names.specs.Names.{name_key};
ghost use Rattle.sheet.specs.Parser.{node_count};
ghost use Rattle.course.specs.Course.{kind_of, is_html, has_content, child_position, type_position, live_ranges, first_live, held_cursor, begin, resumed};

use cells::numbers::u16_at;
use cells::{get, number_at};
use counters::{child_count, inc, times};
use cursors::{Cursor, Live, Ranges};
use exec::scan::{Scan, Scanned};
use names::name_key;
use node_tests::Tag;
use node_tests::attribute_matcher::AttributeMatcher;
use shapes::counts_types;
use stack::{
    ANCESTORS, ANCESTORS_TOP, HELD_AT, HELD_KIND, HELD_SLOT, HELD_STAGE, HELD_STOP, OPENS,
    PARENTS_MARK, PARENTS_TOP, ROW, ROWS,
};
use waiting::held_found;

// Kept as it is: the header's word 6 holds namespace and void as one number, of which `kind_of`, `is_html` and `has_content` of specs/Course.antt speak.
#[tactic(auto, unfolding(crate::specs::Course::kind_of))]
pub fn kind_of(namespace: u32, void: bool) -> u32
    requires { namespace ≤ 2 }
    ensures { result ≡ kind_of namespace void }
{
    if void { namespace + 4 } else { namespace }
}

#[tactic(auto, unfolding(crate::specs::Course::is_html))]
pub fn is_html(kind: u32) -> bool
    ensures { result ≡ is_html kind }
{
    kind % 4 == 0
}

#[tactic(auto, unfolding(crate::specs::Course::has_content))]
pub fn has_content(kind: u32, self_closing: bool) -> bool
    ensures { result ≡ has_content kind self_closing }
{
    if is_html(kind) {
        kind / 4 % 2 != 1
    } else {
        !self_closing
    }
}

#[tactic(auto, unfolding(crate::specs::Course::child_position))]
fn child_position(rows: &[u32]) -> u32
    ensures { result ≡ child_position rows.now }
{
    inc(child_count(rows))
}

#[tactic(auto, unfolding(crate::specs::Course::type_position))]
fn type_position(rows: &[u32], names: &[u8], name: &[u8]) -> u32
    ensures { result ≡ type_position rows.now names.now name.now }
{
    if counts_types(rows) {
        inc(times(rows, names, name))
    } else {
        1
    }
}

fn live_ranges(sheet: &[u8], rows: &[u32]) -> Ranges
    ensures { result ≡ live_ranges sheet.now rows.now }
{
    Ranges {
        parents_top: number_at(rows, PARENTS_TOP),
        ancestors_from: ANCESTORS,
        ancestors_top: ANCESTORS + number_at(rows, ANCESTORS_TOP),
        limit: u16_at(sheet, 5) as u16,
    }
}

fn first_live(sheet: &[u8], rows: &[u32]) -> Cursor
    ensures { result ≡ first_live sheet.now rows.now }
{
    let top = ROWS + number_at(rows, OPENS) * ROW;
    Cursor::first(number_at(rows, top + PARENTS_MARK), u16_at(sheet, 7))
}

fn held_cursor(rows: &[u32]) -> Cursor
    ensures { result ≡ held_cursor rows.now }
{
    Cursor {
        stage: get(rows, HELD_STAGE),
        slot: number_at(rows, HELD_SLOT),
        at: number_at(rows, HELD_AT),
        stop: number_at(rows, HELD_STOP),
    }
}

// What a scan reads of a machine: all but its ids, and none of it to write.
#[derive(Clone, Copy)]
struct View<'m> {
    sheet: &'m [u8],
    program: &'m [u32],
    rows: &'m [u32],
    names: &'m [u8],
    nodes: &'m [u16],
}

// The scan of the tag that comes now or waits.
fn scan_of<'m, 'n>(machine: &View<'m>, name: &'n [u8]) -> Scan<'m, 'm, 'n>
    ensures sheet { result.sheet.now ≡ machine.now.sheet.now }
    ensures program { result.live.program.now ≡ machine.now.program.now }
    ensures nodes { result.live.nodes.now ≡ machine.now.nodes.now }
    ensures ranges { result.live.ranges ≡ live_ranges machine.now.sheet.now machine.now.rows.now }
    ensures name { result.tag.name.now ≡ name.now }
    ensures child { result.tag.child ≡ child_position machine.now.rows.now }
    ensures of_type { result.tag.of_type ≡ type_position machine.now.rows.now machine.now.names.now name.now }
    ensures key { result.key ≡ name_key name.now }
{
    Scan {
        sheet: machine.sheet,
        live: Live {
            program: machine.program,
            nodes: machine.nodes,
            ranges: live_ranges(machine.sheet, machine.rows),
        },
        tag: Tag {
            name,
            child: child_position(machine.rows),
            of_type: type_position(machine.rows, machine.names, name),
        },
        key: name_key(name),
    }
}

// The scan of a tag that comes now: HTML with the tag alone; SVG and MathML wait before the first instruction.
// Kept as it is: who has the stores only to read can call it too, and a Machine has them to write.
pub fn begin_scan(
    sheet: &[u8],
    program: &[u32],
    rows: &[u32],
    names: &[u8],
    nodes: &[u16],
    name: &[u8],
    kind: u32,
    found: &mut [u16],
) -> Scanned
    ensures { (result ≡ answer_from 0 (begin sheet.now program.now rows.now names.now nodes.now name.now kind)) × (found.new ≡ written found.old 0 (found_in (begin sheet.now program.now rows.now names.now nodes.now name.now kind))) }
{
    let machine = View {
        sheet,
        program,
        rows,
        names,
        nodes,
    };
    let from = first_live(machine.sheet, machine.rows);
    if !is_html(kind) {
        return Scanned {
            count: 0,
            stopped_at: Some(from),
        };
    }
    let scan = scan_of(&machine, name);
    scan.by_tag(from, u16_at(machine.sheet, 5) as u16, found)
}

// All nodes that the waiting tag matches with its attributes: those found before it waited, and those from its cursor on.
// Kept as it is: as for begin_scan.
pub fn resume_scan(
    sheet: &[u8],
    program: &[u32],
    rows: &[u32],
    names: &[u8],
    nodes: &[u16],
    name: &[u8],
    input: &[u8],
    outlines: &[u32],
    found: &mut [u16],
) -> usize
    requires { (get_or rows.now 7 0 ≤ node_count sheet.now) × (node_count sheet.now ≤ 1024) }
    ensures { (result ≡ length (resumed sheet.now program.now rows.now names.now nodes.now name.now input.now outlines.now)) × (found.new ≡ written found.old 0 (resumed sheet.now program.now rows.now names.now nodes.now name.now input.now outlines.now)) }
{
    let machine = View {
        sheet,
        program,
        rows,
        names,
        nodes,
    };
    let count = held_found(machine.rows, machine.nodes, found);
    let scan = scan_of(&machine, name);
    let html = is_html(get(machine.rows, HELD_KIND));
    let attributes = AttributeMatcher::new(input, outlines, html);
    let from = held_cursor(machine.rows);
    let budget = (u16_at(machine.sheet, 5) - count) as u16;
    scan.with_attributes(attributes, from, budget, count as u16, found)
}
