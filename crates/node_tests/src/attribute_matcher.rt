//! The attributes of one tag as one value, and the attribute tests of a sheet against it (attribute_matcher.rs).
ghost use Rattle.std.specs.Prelude.{◌≡◌};
ghost use Rattle.rules.specs.Attributes.{attributes_of};
ghost use Rattle.node_tests.specs.Tests.{ignores_case, operator_of, comparison, attribute_kind, attribute_holds, attribute_test_holds, read_attribute_test};
ghost use Rattle.node_tests.specs.Readings.{attribute_test_of};

use crate::is_negated;
use cells::{get, number_at, part_of};
use operators::Operator;
use rules::attribute_matcher::{has_attribute, value_matches};

// What an attribute test says. A comparison's case byte is read against the tag's namespace.
#[derive(Clone, Copy)]
pub enum AttributeTest<'s> {
    IdIs(&'s [u8]),
    HasClass(&'s [u8]),
    Exists(&'s [u8]),
    Unencodable,
    Compares {
        operator: Operator,
        case: u8,
        name: &'s [u8],
        value: &'s [u8],
    },
}

impl<'s> AttributeTest<'s> {
    // By its kind and body; a kind that is none selects nothing.
    pub fn read(kind: u8, body: &'s [u8]) -> AttributeTest<'s>
        ensures { attribute_test_of result ≡ attribute_kind kind body.now }
    {
        match kind {
            16 => AttributeTest::IdIs(body),
            17 => AttributeTest::HasClass(body),
            18 => AttributeTest::Exists(body),
            20..=25 => AttributeTest::comparison(operator_of(kind), body),
            _ => AttributeTest::Unencodable,
        }
    }

    // A comparison's body: case byte, length of the name, name, value.
    pub fn comparison(operator: Operator, body: &'s [u8]) -> AttributeTest<'s>
        ensures { attribute_test_of result ≡ comparison operator body.now }
    {
        let end = 2 + number_at(body, 1);
        AttributeTest::Compares {
            operator,
            case: get(body, 0),
            name: part_of(body, 2, end),
            value: part_of(body, end, body.len()),
        }
    }
}

// Whether a case byte, in this namespace, ignores ASCII case.
pub fn to_unconditional(case: u8, html: bool) -> bool
    ensures { result ≡ ignores_case case html }
{
    match case {
        2 => true,
        3 => html,
        _ => false,
    }
}

pub fn operator_of(kind: u8) -> Operator
    ensures { result ≡ operator_of kind }
{
    match kind {
        20 => Operator::Equal,
        21 => Operator::Includes,
        22 => Operator::Dash,
        23 => Operator::Prefix,
        24 => Operator::Suffix,
        _ => Operator::Substring,
    }
}

#[derive(Clone, Copy)]
pub struct AttributeMatcher<'i, 'o> {
    pub input: &'i [u8],
    pub outlines: &'o [u32],
    pub html: bool,
}

impl<'i, 'o> AttributeMatcher<'i, 'o> {
    pub fn new(input: &'i [u8], outlines: &'o [u32], html: bool) -> AttributeMatcher<'i, 'o>
        ensures input { result.input ≡ input.entry }
        ensures outlines { result.outlines ≡ outlines.entry }
        ensures html { result.html ≡ html }
    {
        AttributeMatcher {
            input,
            outlines,
            html,
        }
    }

    // Whether the tag passes a test. A comparison's name is lower-cased, as the Rust does when it compiles.
    pub fn holds<'t>(self, test: AttributeTest<'t>) -> bool
        ensures { result ≡ attribute_holds self.entry.html (attributes_of self.entry.input.now self.entry.outlines.now) (attribute_test_of test.entry) }
    {
        let AttributeMatcher {
            input,
            outlines,
            html,
        } = self;
        match test {
            AttributeTest::IdIs(value) => {
                value_matches(input, outlines, b"id", false, Operator::Equal, value, false)
            }
            AttributeTest::HasClass(value) => value_matches(
                input,
                outlines,
                b"class",
                false,
                Operator::Includes,
                value,
                false,
            ),
            AttributeTest::Exists(name) => has_attribute(input, outlines, name),
            AttributeTest::Unencodable => false,
            AttributeTest::Compares {
                operator,
                case,
                name,
                value,
            } => value_matches(
                input,
                outlines,
                name,
                true,
                operator,
                value,
                to_unconditional(case, html),
            ),
        }
    }

    // Whether the tag passes an attribute test of the sheet.
    pub fn matches<'t>(self, test: &'t [u8]) -> bool
        ensures { result ≡ attribute_test_holds self.entry.html (attributes_of self.entry.input.now self.entry.outlines.now) (read_attribute_test test.now) }
    {
        let body = part_of(test, 2, test.len());
        self.holds(AttributeTest::read(get(test, 0), body)) != is_negated(test)
    }
}

// The same with plain parameters: the tag's attributes become one value, which is asked.
pub fn attribute_test(test: &[u8], input: &[u8], outlines: &[u32], html: bool) -> bool
    ensures { result ≡ attribute_test_holds html (attributes_of input.now outlines.now) (read_attribute_test test.now) }
{
    AttributeMatcher::new(input, outlines, html).matches(test)
}
