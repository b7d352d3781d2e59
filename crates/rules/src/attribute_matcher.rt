//! Attributes: the lookup by name, and the value found against an operand.
ghost use Rattle.std.specs.Prelude.{◌≡◌};
ghost use Rattle.letters.specs.Bytes.{fold};
ghost use Rattle.rules.specs.Attributes.{lies_within, well_formed, good_outlines, lookup, attributes_of, is_there};
ghost use Rattle.rules.specs.Places.{find_in};
ghost use Rattle.operators.specs.Operators.{value_holds};

use cells::part_of;
use letters::same;
use operators::{Operator, compare};

// The most bytes of input, and the most numbers of outlines, that refusal 24 lets through.
const MAX_INPUT: usize = 65536;

const MAX_OUTLINES: usize = 1024;

// No start past its end, no end past `size`.
pub fn lies_within(size: usize, start: usize, end: usize) -> bool
    ensures { result ≡ lies_within size start end }
{
    start <= end && end <= size
}

// Outlines come in fours, names and values lie within `size` bytes.
pub fn well_formed(size: usize, outlines: &[u32]) -> bool
    ensures { result ≡ well_formed size outlines.now }
{
    let mut rest = outlines;
    while let [name_start, name_end, start, end, more @ ..] = rest {
        if !lies_within(size, *name_start as usize, *name_end as usize) {
            return false;
        }
        if !lies_within(size, *start as usize, *end as usize) {
            return false;
        }
        rest = more;
    }
    rest.is_empty()
}

// What refusal 24 does not refuse.
pub fn good_outlines(input: &[u8], outlines: &[u32]) -> bool
    ensures { result ≡ good_outlines input.now outlines.now }
{
    input.len() <= MAX_INPUT && outlines.len() <= MAX_OUTLINES && well_formed(input.len(), outlines)
}

// Where the value of the first attribute stands whose lower-cased name is `name`, which is lower-cased too where its case is ignored.
pub fn find(input: &[u8], outlines: &[u32], name: &[u8], ignore: bool) -> Option<(usize, usize)>
    ensures { result ≡ find_in input.now (fold ignore name.now) outlines.now }
{
    let mut rest = outlines;
    while let [name_start, name_end, start, end, more @ ..] = rest {
        let candidate = part_of(input, *name_start as usize, *name_end as usize);
        if same(candidate, true, name, ignore) {
            return Some((*start as usize, *end as usize));
        }
        rest = more;
    }
    None
}

pub fn has_attribute(input: &[u8], outlines: &[u32], name: &[u8]) -> bool
    ensures { result ≡ is_there (lookup name.now (attributes_of input.now outlines.now)) }
{
    find(input, outlines, name, false).is_some()
}

// The value that a name finds, against an operand; no value passes where there is no such attribute.
pub fn value_matches(
    input: &[u8],
    outlines: &[u32],
    name: &[u8],
    ignore: bool,
    operator: Operator,
    operand: &[u8],
    f: bool,
) -> bool
    ensures { result ≡ value_holds operator f operand.now (lookup (fold ignore name.now) (attributes_of input.now outlines.now)) }
{
    match find(input, outlines, name, ignore) {
        Some((start, end)) => compare(operator, part_of(input, start, end), operand, f),
        None => false,
    }
}
