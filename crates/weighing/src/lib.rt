//! What a call weighs of its own before it writes anything: the refusals of 01, section 2.
#![tactic(auto)]

ghost use Rattle.std.specs.Prelude.{◌≡◌, map};
ghost use Rattle.cells.specs.Stretches.{written};
ghost use Rattle.letters.specs.Bytes.{lower_of};
ghost use Rattle.refusals.specs.Numbers.{number_of};
ghost use Rattle.weighing.specs.Weighing.{is_bad_name, tag_refusal, pairs_full, push_refusal, attributes_refusal, end_refusal};
ghost use Rattle.weighing.specs.Words.{cell};

use cells::numbers::u16_at;
use cells::{number_at, put};
use counters::{child_count, is_known};
use letters::lower;
use refusals::Refusal;
use rules::attribute_matcher::good_outlines;
use shapes::{NAME_LIMIT, OPEN_LIMIT, PAIR_LIMIT, PARENT_LIMIT, counts_types};
use stack::blocks::count_parents;
use stack::{OPENS, PAIRS_TOP, PARENTS_TOP, WAITS};

// The highest namespace, and the most children that an element counts.
const LAST_NAMESPACE: u32 = 2;

const CHILD_LIMIT: u32 = 2147483647;

#[tactic(auto, unfolding(crate::specs::Weighing::is_bad_name))]
pub fn is_bad_name(name: &[u8]) -> bool
    ensures { result ≡ is_bad_name name.now }
{
    name.is_empty() || NAME_LIMIT < name.len()
}

// Writes the lower-cased name to the front of a buffer.
pub fn lower_into(name: &[u8], out: &mut [u8])
    ensures { out.new ≡ written out.old 0 (map lower_of name.now) }
{
    for (i, &b) in name.iter().enumerate() {
        put(out, i, lower(b));
    }
}

// Start tag, before its name is looked for: 22, 20, 21, 25.
// Kept as it is: the C interface hands any number as namespace, of which refusal 21 speaks.
#[tactic(auto, unfolding(crate::specs::Weighing::tag_refusal))]
pub fn check_tag(rows: &[u32], namespace: u32, name: &[u8]) -> Result<(), Refusal>
    ensures { number_of result ≡ tag_refusal rows.now namespace name.now }
{
    if number_at(rows, WAITS) != 0 {
        return Err(Refusal::TagWaits);
    }
    if is_bad_name(name) {
        return Err(Refusal::BadName);
    }
    if LAST_NAMESPACE < namespace {
        return Err(Refusal::BadNamespace);
    }
    if CHILD_LIMIT <= child_count(rows) {
        return Err(Refusal::ChildCountFull);
    }
    Ok(())
}

// 26, for a lower-cased name.
#[tactic(auto, unfolding(crate::specs::Weighing::pairs_full))]
pub fn are_pairs_full(rows: &[u32], names: &[u8], name: &[u8]) -> bool
    ensures { result ≡ pairs_full rows.now names.now name.now }
{
    counts_types(rows) && PAIR_LIMIT <= number_at(rows, PAIRS_TOP) && !is_known(rows, names, name)
}

// A tag that is whole: 27, 28, if it would be pushed.
#[tactic(auto, unfolding(crate::specs::Weighing::push_refusal))]
pub fn check_push(
    sheet: &[u8],
    program: &[u32],
    rows: &[u32],
    content: bool,
    found: &[u16],
) -> Result<(), Refusal>
    ensures { number_of result ≡ push_refusal sheet.now program.now rows.now content found.now }
{
    if !content {
        return Ok(());
    }
    if OPEN_LIMIT <= number_at(rows, OPENS) {
        return Err(Refusal::TooManyOpen);
    }
    let parents = number_at(rows, PARENTS_TOP) + count_parents(program, u16_at(sheet, 5), found);
    if PARENT_LIMIT < parents {
        return Err(Refusal::TooManyMatched);
    }
    Ok(())
}

// Attributes: 23, 24.
#[tactic(auto, unfolding(crate::specs::Weighing::attributes_refusal))]
pub fn check_attributes(rows: &[u32], input: &[u8], outlines: &[u32]) -> Result<(), Refusal>
    ensures { number_of result ≡ attributes_refusal rows.now input.now outlines.now }
{
    if number_at(rows, WAITS) == 0 {
        return Err(Refusal::NoTagWaits);
    }
    if !good_outlines(input, outlines) {
        return Err(Refusal::BadOutlines);
    }
    Ok(())
}

// End tag, before its name is looked for: 22, 20.
#[tactic(auto, unfolding(crate::specs::Weighing::end_refusal))]
pub fn check_end(rows: &[u32], name: &[u8]) -> Result<(), Refusal>
    ensures { number_of result ≡ end_refusal rows.now name.now }
{
    if number_at(rows, WAITS) != 0 {
        return Err(Refusal::TagWaits);
    }
    if is_bad_name(name) {
        return Err(Refusal::BadName);
    }
    Ok(())
}

// A number as a cell of the rows keeps it.
pub fn cell_of(n: usize) -> u32
    ensures { result ≡ cell n }
{
    (n % 4294967296) as u32
}
