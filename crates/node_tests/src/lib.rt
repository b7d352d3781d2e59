//! Whole tests of a sheet, read from its bytes: kind, negation, body (01, section 1). Any bytes are answered.
#![tactic(auto)]

ghost use Rattle.std.specs.Prelude.{◌≡◌, eqb, not};
ghost use Rattle.node_tests.specs.Tests.{tag_kind, tag_holds, tag_test_holds, read_tag_test, is_negated};
ghost use Rattle.node_tests.specs.Readings.{tag_test_of};

use cells::numbers::i32_at;
use cells::{get, part_of};
use names::same_name;
use nth::nth;

pub mod attribute_matcher;

pub use attribute_matcher::{attribute_test, operator_of, to_unconditional};

// A tag that is tested: its name, and its positions among its siblings and among those of its name, from 1.
#[derive(Clone, Copy)]
pub struct Tag<'n> {
    pub name: &'n [u8],
    pub child: u32,
    pub of_type: u32,
}

// What a tag test says.
#[derive(Clone, Copy)]
pub enum TagTest<'s> {
    Any,
    Unmatchable,
    LocalName(&'s [u8]),
    NthChild { step: i32, offset: i32 },
    NthOfType { step: i32, offset: i32 },
}

impl<'s> TagTest<'s> {
    // By its kind and body; a kind that is none selects nothing.
    pub fn read(kind: u8, body: &'s [u8]) -> TagTest<'s>
        ensures { tag_test_of result ≡ tag_kind kind body.now }
    {
        match kind {
            1 => TagTest::Any,
            3 => TagTest::LocalName(body),
            4 => TagTest::NthChild {
                step: i32_at(body, 0),
                offset: i32_at(body, 4),
            },
            5 => TagTest::NthOfType {
                step: i32_at(body, 0),
                offset: i32_at(body, 4),
            },
            _ => TagTest::Unmatchable,
        }
    }

    pub fn holds<'n>(self, tag: Tag<'n>) -> bool
        ensures { result ≡ tag_holds tag.entry.name.now tag.entry.child tag.entry.of_type (tag_test_of self.entry) }
    {
        match self {
            TagTest::Any => true,
            TagTest::Unmatchable => false,
            TagTest::LocalName(name) => same_name(tag.name, name),
            TagTest::NthChild { step, offset } => nth(step, offset, tag.child),
            TagTest::NthOfType { step, offset } => nth(step, offset, tag.of_type),
        }
    }
}

// Whether a test is the opposite of what its kind and body say.
fn is_negated(test: &[u8]) -> bool
    ensures { result ≡ is_negated test.now }
{
    get(test, 1) != 0
}

// Whether a tag passes a tag test of the sheet.
pub fn tag_test<'n>(test: &[u8], tag: Tag<'n>) -> bool
    ensures { result ≡ tag_test_holds tag.entry.name.now tag.entry.child tag.entry.of_type (read_tag_test test.now) }
{
    let body = part_of(test, 2, test.len());
    TagTest::read(get(test, 0), body).holds(tag) != is_negated(test)
}
