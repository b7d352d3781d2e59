//! Instruction rows (program.rs): an instruction is eight words of a lent store, its address the number of its row.
#![tactic(auto)]

ghost use Rattle.std.specs.Prelude.{◌≡◌, map, ◌*◌, ◌≤◌, length};
ghost use Rattle.std.proofs.lemmas.List.Edits.{sets};
ghost use Rattle.node_tests.specs.Tests.{read_tag_test};
ghost use Rattle.node_records.specs.Records.{end_of, tests_from, child_count, descendant_count};
ghost use Rattle.sheet.specs.Meaning.{of_type};
ghost use Rattle.sheet.specs.Places.{IsSheetPlace};
ghost use Rattle.sheet.specs.Spelling.{TestsInside, Inside};
ghost use Rattle.program.specs.Program.{test_key, node_key, words, row, any_of_type, instruction_at};

use cells::numbers::u16_at;
use cells::{get, number_at, part_of, put};
use names::name_key;
use node_records::Links;
use node_tests::TagTest;

/// How many words a row has.
pub const ROW_WORDS: usize = 8;

// The name key of one test: its name's if it is a local name, not negated.
#[tactic(auto, using(crate::proofs::TestLaws::key_negated, crate::proofs::TestLaws::key_name))]
fn test_key(test: &[u8]) -> u32
    ensures { result ≡ test_key (read_tag_test test.now) }
{
    if get(test, 1) != 0 {
        return 0;
    }
    match TagTest::read(get(test, 0), part_of(test, 2, test.len())) {
        TagTest::LocalName(name) => name_key(name),
        _ => 0,
    }
}

// The name key of the `count` tests at `at`: the first one's.
#[tactic(auto, using(crate::proofs::TestLaws::first_key, crate::proofs::TestLaws::no_key))]
fn node_key(s: &[u8], count: usize, at: usize) -> u32
    requires { IsSheetPlace at }
    ensures { result ≡ node_key (map read_tag_test (tests_from s.now count at)) }
{
    match count {
        0 => 0,
        _ => test_key(part_of(s, at + 2, at + 2 + u16_at(s, at))),
    }
}

// Of nth-of-type, also negated.
fn is_of_type(test: &[u8]) -> bool
    ensures { result ≡ of_type (read_tag_test test.now).test }
{
    matches!(
        TagTest::read(get(test, 0), part_of(test, 2, test.len())),
        TagTest::NthOfType { .. }
    )
}

// Is a test of kind 5 among the `count` tests at `at`, which end before `end`?
pub fn any_of_type(s: &[u8], end: usize, count: usize, at: usize) -> bool
    requires { IsSheetPlace end × TestsInside s.now end count at }
    ensures { result ≡ any_of_type (map read_tag_test (tests_from s.now count at)) }
{
    let mut here = at;
    for _ in 0..count {
        let next = here + 2 + u16_at(s, here);
        if is_of_type(part_of(s, here + 2, next)) {
            return true;
        }
        here = next;
    }
    false
}

/// What follows the record at `at`, which stands in a good sheet.
pub fn links_at(s: &[u8], at: usize) -> Links
    requires { IsSheetPlace (length s.now) × Inside s.now at }
    ensures next_value { result.next ≡ end_of s.now at }
    ensures children_value { result.children ≡ child_count s.now at }
    ensures descendants_value { result.descendants ≡ descendant_count s.now at }
{
    let counts = at + 3 + number_at(s, at + 2);
    Links {
        next: at + 2 + u16_at(s, at),
        children: u16_at(s, counts + 2),
        descendants: u16_at(s, counts + 4),
    }
}

/// Neighbouring addresses; none if the count is 0.
#[derive(Clone, Copy)]
pub struct AddressRange {
    pub first: u32,
    pub count: u32,
}

// An instruction in words: where its record and its first test stand, its numbers of tests, its blocks, its name key.
#[derive(Clone, Copy)]
struct Row {
    place: u32,
    test: u32,
    counts: u32,
    children: AddressRange,
    descendants: AddressRange,
    key: u32,
}

#[tactic(auto, unfolding(crate::specs::Program::words))]
fn put_row(store: &mut [u32], slot: usize, row: Row)
    requires { slot ≤ 1024 }
    ensures { store.new ≡ sets store.old (slot * 8) (words row.place row.test row.counts row.children.first row.children.count row.descendants.first row.descendants.count row.key) }
{
    let words = [
        row.place,
        row.test,
        row.counts,
        row.children.first,
        row.children.count,
        row.descendants.first,
        row.descendants.count,
        row.key,
    ];
    for (i, &word) in words.iter().enumerate() {
        put(store, slot * ROW_WORDS + i, word);
    }
}

/// Writes the instruction of the record at `at`, whose blocks begin at two addresses.
pub fn put_instruction(
    s: &[u8],
    store: &mut [u32],
    slot: usize,
    at: usize,
    children: usize,
    descendants: usize,
)
    requires s_len_bound { IsSheetPlace (length s.now) × Inside s.now at }
    requires slot_bound { (slot ≤ 1024) × ((children ≤ 1024) × (descendants ≤ 1024)) }
    ensures { store.new ≡ sets store.old (slot * 8) (row (instruction_at s.now at children descendants)) }
{
    let counts = at + 3 + number_at(s, at + 2);
    let tags = number_at(s, counts);
    let attributes = number_at(s, counts + 1);
    let tests = counts + 6;
    put_row(
        store,
        slot,
        Row {
            place: at as u32,
            test: tests as u32,
            counts: (tags * 256 + attributes) as u32,
            children: AddressRange {
                first: children as u32,
                count: u16_at(s, counts + 2) as u32,
            },
            descendants: AddressRange {
                first: descendants as u32,
                count: u16_at(s, counts + 4) as u32,
            },
            key: node_key(s, tags, tests),
        },
    );
}
