//! One record, one line: the machine's calls by what the record says.
#![tactic(auto)]

ghost use Rattle.std.specs.Prelude.{◌≡◌, ◌+◌, ◌≤◌, Some, length, IfSome};
ghost use Rattle.stack.specs.Lent.{contents, SameLoans};
ghost use Rattle.answers.specs.Answers.{turn_by, outline_room, turn_of};
ghost use Rattle.attribute_records.specs.AttributeRecords.{Fits};
ghost use Rattle.replies.specs.Replies.{answered, saying};

use attribute_records::Record;
use cells::part_of;
use records::record_of;
use replies::{answer_attributes, answer_end, answer_start};
use stack::machine::Machine;

// Answers a record that was read, with its outlines.
#[tactic(auto, unfolding(crate::specs::Answers::turn_by))]
fn answer_record(
    machine: &mut Machine,
    body: &[u8],
    read: Record,
    outlines: &[u32],
    out: &mut [u8],
    at: usize,
) -> usize
    requires { (at ≤ 4294967296) × Fits read × (1020 ≤ length outlines.now) }
    ensures nodes_after { answered (Some result) out.new (contents machine.new) ≡ saying (turn_by machine.old.sheet.now machine.old.program.now (contents machine.old) body.now (Some read) outlines.now) out.old at }
    ensures upper_bound { result ≤ at + 4096 }
    ensures lent { SameLoans machine.old machine.new }
{
    match read {
        Record::Start { namespace } => {
            let name = part_of(body, 2, body.len());
            answer_start(machine, namespace, name, out, at)
        }
        Record::Attributes { closing, numbers } => {
            let given = &outlines[..numbers];
            answer_attributes(machine, closing, body, given, out, at)
        }
        Record::End => {
            let name = part_of(body, 1, body.len());
            let rows = &mut *machine.rows;
            let names = &mut *machine.names;
            let ids = &mut *machine.ids;
            let nodes = &mut *machine.nodes;
            answer_end(
                machine.sheet,
                machine.program,
                rows,
                names,
                ids,
                nodes,
                name,
                out,
                at,
            )
        }
    }
}

#[tactic(auto, unfolding(crate::specs::Answers::outline_room))]
fn outline_room() -> [u32; 1020]
    ensures { result ≡ outline_room }
{
    [0; 1020]
}

// Answers the record of this body with a line, if it is of its form.
#[tactic(auto, unfolding(crate::specs::Answers::turn_of))]
pub fn answer(machine: &mut Machine, body: &[u8], out: &mut [u8], at: usize) -> Option<usize>
    requires { at ≤ 4294967296 }
    ensures nodes_after { answered result out.new (contents machine.new) ≡ saying (turn_of machine.old.sheet.now machine.old.program.now (contents machine.old) body.now) out.old at }
    ensures within { IfSome result (λ end. end ≤ at + 4096) }
    ensures lent { SameLoans machine.old machine.new }
{
    let mut outlines = outline_room();
    let read = record_of(body, &mut outlines)?;
    Some(answer_record(machine, body, read, &outlines, out, at))
}
