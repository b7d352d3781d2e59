//! Records of a trace read from their bytes (01, section 8). Any bytes are answered.
#![tactic(auto)]

ghost use Rattle.std.specs.Prelude.{◌≡◌, ◌-◌, ◌≤◌, length, IfSome};
ghost use Rattle.cells.specs.Stretches.{cells_from, written};
ghost use Rattle.attribute_records.specs.AttributeRecords.{read, Fits};
ghost use Rattle.records.specs.Records.{record_end, start_of, record_of};
ghost use Rattle.records.specs.Sheets.{sheet_length, sheet_end};

use attribute_records::{Record, attributes_of};
use cells::number_at;
use cells::numbers::{u16_at, u32_at};

// Where the record at a place of a block ends, if all of it is there: two bytes of length, then so many bytes.
#[tactic(auto, unfolding(crate::specs::Records::record_end))]
pub fn record_end(block: &[u8], at: usize) -> Option<usize>
    ensures { result ≡ record_end block.now at }
{
    let rest = block.len().checked_sub(at)?;
    let room = rest.checked_sub(2)?;
    let n = u16_at(block, at);
    if room < n {
        return None;
    }
    Some(at + 2 + n)
}

// Moves the bytes from `at` to `end`, a record that was cut, to the front of their buffer, and answers how many they are.
pub fn keep(s: &mut [u8], at: usize, end: usize) -> usize
    requires { (at ≤ end) × (end ≤ length s.old) }
    ensures { (result ≡ end - at) × (s.new ≡ written s.old 0 (cells_from s.old at (end - at))) }
{
    s.copy_within(at..end, 0);
    end - at
}

#[tactic(auto, unfolding(crate::specs::Records::start_of))]
fn start_of(body: &[u8]) -> Option<Record>
    ensures value { result ≡ start_of body.now }
    ensures fits { IfSome result Fits }
{
    let namespace = *body.get(1)? as u32;
    Some(Record::Start { namespace })
}

// What a body says. The outlines are places in the body: name start, name end, value start, value end of each attribute.
#[tactic(auto, unfolding(crate::specs::Records::record_of))]
pub fn record_of(body: &[u8], outlines: &mut [u32]) -> Option<Record>
    ensures outlines_after { read result outlines.new ≡ record_of body.now outlines.old }
    ensures fits { IfSome result Fits }
{
    let kind = number_at(body, 0);
    match kind {
        1 => start_of(body),
        2 => attributes_of(body, outlines),
        3 => Some(Record::End),
        _ => None,
    }
}

// How many bytes a sheet has, from its first five.
#[tactic(auto, unfolding(crate::specs::Sheets::sheet_length))]
pub fn sheet_length(head: &[u8]) -> usize
    ensures value { result ≡ sheet_length head.now }
    ensures upper_bound { result ≤ 65536 }
{
    u32_at(head, 1).min(65536)
}

// Where the sheet at the start of an input ends.
#[tactic(auto, unfolding(crate::specs::Sheets::sheet_end))]
pub fn sheet_end(input: &[u8]) -> usize
    ensures value { result ≡ sheet_end input.now }
    ensures upper_bound { (result ≤ length input.now) × (result ≤ 65536) }
{
    if input.len() < 5 {
        return input.len();
    }
    sheet_length(input).min(input.len())
}
