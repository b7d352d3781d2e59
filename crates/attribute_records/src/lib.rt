//! The attributes of a record read from its bytes (01, section 8). Any bytes are answered.
#![tactic(auto)]

ghost use Rattle.std.specs.Prelude.{◌≡◌, ◌≤◌, length, IfSome};
ghost use Rattle.attribute_records.specs.AttributeRecords.{read, read_attribute, attributes_of, stepped, Fits};

use cells::numbers::u16_at;
use cells::{number_at, put};

// What a record says. A start tag has its name from byte 2 of the body on; an end tag has its name from byte 1 on;
// attributes have the self-closing mark and how many numbers their outlines are.
#[derive(Clone, Copy)]
pub enum Record {
    Start { namespace: u32 },
    Attributes { closing: bool, numbers: usize },
    End,
}

// The attribute at a place, if it is whole: its outline goes to the outlines from `slot` on, and the next one starts where it ends.
#[tactic(auto, unfolding(crate::specs::AttributeRecords::read_attribute))]
fn read_attribute(body: &[u8], outlines: &mut [u32], slot: usize, at: usize) -> Option<usize>
    requires { (length body.now ≤ 65535) × (slot ≤ 65536) }
    ensures { stepped result outlines.new ≡ read_attribute body.now slot at outlines.old }
{
    if body.len() <= at {
        return None;
    }
    let name = at + 1;
    let name_end = name + number_at(body, at);
    let value = name_end + 2;
    let value_end = value + u16_at(body, name_end);
    if body.len() < value_end {
        return None;
    }
    put(outlines, slot, name as u32);
    put(outlines, slot + 1, name_end as u32);
    put(outlines, slot + 2, value as u32);
    put(outlines, slot + 3, value_end as u32);
    Some(value_end)
}

// The attributes of a body, if it is of their form.
#[tactic(auto, unfolding(crate::specs::AttributeRecords::attributes_of))]
pub fn attributes_of(body: &[u8], outlines: &mut [u32]) -> Option<Record>
    ensures outlines_after { read result outlines.new ≡ attributes_of body.now outlines.old }
    ensures fits { IfSome result Fits }
{
    if body.len() < 3 || 65535 < body.len() {
        return None;
    }
    let mark = number_at(body, 1);
    if 1 < mark {
        return None;
    }
    let count = number_at(body, 2);
    let mut at = 3;
    for i in 0..count {
        at = read_attribute(body, outlines, 4 * i, at)?;
    }
    if at != body.len() {
        return None;
    }
    Some(Record::Attributes {
        closing: mark == 1,
        numbers: 4 * count,
    })
}
