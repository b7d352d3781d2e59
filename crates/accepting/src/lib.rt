//! A whole start tag accepted (01, section 4; mod.rs): its ids go out, it is counted, and pushed if it has content.
#![tactic(auto)]

ghost use Rattle.std.specs.Prelude.{◌≡◌, ◌≤◌, length};
ghost use Rattle.stack.specs.Lent.{contents, SameLoans};
ghost use Rattle.weighing.specs.Weighing.{push_refusal};
ghost use Rattle.accepting.specs.Accepting.{answer_reply, Limited, outcome, accepted};

use cells::numbers::u16_at;
use counters::add_child;
use instructions::ids::gather_ids;
use pushes::push_item;
use shapes::counts_types;
use stack::machine::Machine;

/// The answer to a start tag or to attributes: it matches, with its ids and the content flag; or it waits for its attributes.
// Kept as it is: has the shape of Option, but that a tag waits is an answer with a name, in the documents and in `Reply`.
#[derive(Clone, Copy)]
pub enum Answer {
    Match { ids: [u64; 2], content: bool },
    Attributes,
}

// A whole tag is accepted: its ids go out, it is counted, and pushed if it has content.
pub fn accept(machine: &mut Machine, name: &[u8], content: bool, found: &[u16]) -> Answer
    requires limited { Limited machine.old.rows.now name.now }
    requires found_few { length found.now ≤ 1024 }
    requires unrefused { push_refusal machine.old.sheet.now machine.old.program.now machine.old.rows.now content found.now ≡ 0 }
    ensures answered { outcome (answer_reply result) (contents machine.new) ≡ accepted machine.old.sheet.now machine.old.program.now (contents machine.old) name.now content found.now }
    ensures lent { SameLoans machine.old machine.new }
{
    let mut words = [0, 0];
    gather_ids(machine.sheet, machine.program, found, &mut words);
    let rows = &mut *machine.rows;
    let types = counts_types(rows);
    add_child(rows, machine.names, name, types);
    if content {
        let limit = u16_at(machine.sheet, 5);
        push_item(machine, limit, name, &words, found);
    }
    Answer::Match {
        ids: words,
        content,
    }
}
