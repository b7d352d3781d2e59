//! The tests of one instruction, read from its row and from the sheet (program.rs: `Instruction`).
ghost use Rattle.std.specs.Fn.{FnReturnsAt};
ghost use Rattle.std.specs.Prelude.{◌≡◌, List, ℕ, Bool, ◌+◌, ◌-◌, ◌<◌, ◌≤◌, ◌^◌};
ghost use Rattle.cells.specs.Numbers.{IsPlace};
ghost use Rattle.rules.specs.Attributes.{attributes_of};
ghost use Rattle.instructions.specs.Instructions.{row_word, tests_hold, test_end, tests_end, tag_count, attribute_count, tag_tests_pass, attribute_passes, asks};

use cells::numbers::u16_at;
use cells::{number_at, part_of};
use node_tests::attribute_matcher::AttributeMatcher;
use node_tests::{Tag, attribute_test, tag_test};

// The words of a row, of which two speak of tests: where they stand in the sheet, and how many there are.
const ROW_WORDS: usize = 8;

const TESTS: usize = 1;

const COUNTS: usize = 2;

// What a row says of its instruction's tests.
#[derive(Clone, Copy)]
struct Row {
    tests: usize,
    tag_count: usize,
    attribute_count: usize,
}

fn row_of(program: &[u32], a: u16) -> Row
    ensures tests { (result.tests ≡ row_word program.now a 1) × (result.tests < 2 ^ 32) }
    ensures tag_count { (result.tag_count ≡ tag_count program.now a) × (result.tag_count < 2 ^ 8) }
    ensures attribute_count { (result.attribute_count ≡ attribute_count program.now a) × (result.attribute_count < 2 ^ 8) }
{
    let row = a as usize * ROW_WORDS;
    let counts = number_at(program, row + COUNTS);
    Row {
        tests: number_at(program, row + TESTS),
        tag_count: counts / 256 % 256,
        attribute_count: counts % 256,
    }
}

// Where a test of the sheet ends: its length counts what follows the length.
fn test_end(sheet: &[u8], at: usize) -> usize
    requires { at < 2 ^ 50 }
    ensures { (result ≡ test_end sheet.now at) × ((at ≤ result) × (result ≤ at + 65537)) }
{
    at + 2 + u16_at(sheet, at)
}

// Whether so many tests from a place of the sheet on pass.
fn tests_hold<F: Fn(&[u8]) -> bool>(sheet: &[u8], count: usize, from: usize, passes: F) -> bool
    requires bounds { (count < 2 ^ 8) × (from < 2 ^ 49) }
    requires callable { F.IsAlwaysCallable passes }
    ensures { (p : List ℕ → Bool) → ((test : List ℕ) (r : Bool) → FnReturnsAt F.Fn passes test r → r ≡ p test) → result ≡ tests_hold p sheet.now count from }
{
    let mut at = from;
    for _done in 0..count {
        let end = test_end(sheet, at);
        if !passes(part_of(sheet, at + 2, end)) {
            return false;
        }
        at = end;
    }
    true
}

// Where so many tests end.
fn tests_end(sheet: &[u8], count: usize, from: usize) -> usize
    requires { (count < 2 ^ 9) × IsPlace from }
    ensures { (result ≡ tests_end sheet.now count from) × ((from ≤ result) × (result < 2 ^ 49)) }
{
    let mut at = from;
    for _done in 0..count {
        at = test_end(sheet, at);
    }
    at
}

// How many bytes of the sheet the tests of an instruction take.
pub fn tests_bytes(sheet: &[u8], program: &[u32], a: u16) -> usize
    ensures { result ≡ tests_end sheet.now (tag_count program.now a + attribute_count program.now a) (row_word program.now a 1) - row_word program.now a 1 }
{
    let row = row_of(program, a);
    tests_end(sheet, row.tag_count + row.attribute_count, row.tests) - row.tests
}

// Whether all tag tests of an instruction hold, its key apart.
pub fn tag_tests_pass<'n>(sheet: &[u8], program: &[u32], a: u16, tag: Tag<'n>) -> bool
    ensures { result ≡ tag_tests_pass sheet.now program.now tag.entry.name.now tag.entry.child tag.entry.of_type a }
{
    let row = row_of(program, a);
    tests_hold(sheet, row.tag_count, row.tests, |test| tag_test(test, tag))
}

// Whether all attribute tests of an instruction hold: they follow its tag tests.
pub fn attributes_pass<'i, 'o>(
    sheet: &[u8],
    program: &[u32],
    a: u16,
    attributes: AttributeMatcher<'i, 'o>,
) -> bool
    ensures { result ≡ attribute_passes sheet.now program.now attributes.entry.html (attributes_of attributes.entry.input.now attributes.entry.outlines.now) a }
{
    let row = row_of(program, a);
    let from = tests_end(sheet, row.tag_count, row.tests);
    let AttributeMatcher {
        input,
        outlines,
        html,
    } = attributes;
    tests_hold(sheet, row.attribute_count, from, |test| {
        attribute_test(test, input, outlines, html)
    })
}

// Whether an instruction has an attribute test.
pub fn asks_attributes(program: &[u32], a: u16) -> bool
    ensures { result ≡ asks program.now a }
{
    row_of(program, a).attribute_count != 0
}
