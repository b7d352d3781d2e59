//! A start tag from what its scan found to its reply (01, section 4; mod.rs): it waits, it is refused, or it is accepted. A refused tag changes nothing.
#![tactic(auto)]

ghost use Rattle.std.specs.Prelude.{◌≡◌, ◌≤◌, length};
ghost use Rattle.stack.specs.Lent.{contents, SameLoans};
ghost use Rattle.stack.specs.Stores.{released};
ghost use Rattle.accepting.specs.Accepting.{reply_of, Limited, outcome};
ghost use Rattle.tags.specs.Tags.{sought_of, whole, begun};

use accepting::{Answer, accept};
use course::has_content;
use cursors::Cursor;
use refusals::Refusal;
use stack::machine::Machine;
use waiting::{Held, hold, release};
use weighing::{cell_of, check_push};

// What the scan of a start tag found: it waits if the scan stopped; else it needs no attributes, and is refused by 27 or 28, or accepted.
pub fn start_found(
    machine: &mut Machine,
    name: &[u8],
    kind: u32,
    found: &[u16],
    stopped_at: Option<Cursor>,
) -> Result<Answer, Refusal>
    requires limited { Limited machine.old.rows.now name.now }
    requires found_few { length found.now ≤ 1024 }
    ensures answered { outcome (reply_of result) (contents machine.new) ≡ begun machine.old.sheet.now machine.old.program.now (contents machine.old) name.now kind (sought_of found.now stopped_at) }
    ensures lent { SameLoans machine.old machine.new }
{
    if let Some(cursor) = stopped_at {
        let held = Held {
            kind,
            stage: cursor.stage,
            slot: cell_of(cursor.slot),
            at: cell_of(cursor.at),
            stop: cell_of(cursor.stop),
        };
        hold(
            machine.rows,
            machine.names,
            machine.nodes,
            name,
            found,
            held,
        );
        return Ok(Answer::Attributes);
    }
    let content = has_content(kind, false);
    let rows = &mut *machine.rows;
    check_push(machine.sheet, machine.program, rows, content, found)?;
    Ok(accept(machine, name, content, found))
}

// The waiting tag with its attributes: refused by 27 or 28, or it waits no longer and is accepted.
pub fn finish_held(
    machine: &mut Machine,
    name: &[u8],
    content: bool,
    found: &[u16],
) -> Result<Answer, Refusal>
    requires limited { Limited machine.old.rows.now name.now }
    requires found_few { length found.now ≤ 1024 }
    ensures answered { outcome (reply_of result) (contents machine.new) ≡ whole machine.old.sheet.now machine.old.program.now (contents machine.old) (released (contents machine.old)) name.now content found.now }
    ensures lent { SameLoans machine.old machine.new }
{
    let rows = &mut *machine.rows;
    check_push(machine.sheet, machine.program, rows, content, found)?;
    release(rows);
    Ok(accept(machine, name, content, found))
}
