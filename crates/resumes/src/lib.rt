//! The call for the attributes of the tag that waits: its scan goes on (mod.rs). Any bytes are answered or refused; a refused call changes nothing.
#![tactic(auto)]

ghost use Rattle.std.specs.Prelude.{◌≡◌, ◌≤◌, get_or};
ghost use Rattle.sheet.specs.Parser.{node_count};
ghost use Rattle.stack.specs.Lent.{contents, SameLoans};
ghost use Rattle.accepting.specs.Accepting.{reply_of, Limited, outcome};
ghost use Rattle.tags.specs.Tags.{given};
ghost use Rattle.resumes.specs.Resumes.{attributes_call};

use accepting::Answer;
use cells::get;
use course::{has_content, resume_scan};
use refusals::Refusal;
use shapes::check_machine;
use stack::HELD_KIND;
use stack::machine::Machine;
use tags::finish_held;
use waiting::held_name;
use weighing::check_attributes;

// The attributes of the waiting tag, whose name is at hand.
fn attributes_named(
    machine: &mut Machine,
    name: &[u8],
    self_closing: bool,
    input: &[u8],
    outlines: &[u32],
) -> Result<Answer, Refusal>
    requires limited { Limited machine.old.rows.now name.now }
    requires held_few { get_or machine.old.rows.now 7 0 ≤ node_count machine.old.sheet.now }
    requires nodes_few { node_count machine.old.sheet.now ≤ 1024 }
    ensures answered { outcome (reply_of result) (contents machine.new) ≡ given machine.old.sheet.now machine.old.program.now (contents machine.old) name.now self_closing input.now outlines.now }
    ensures lent { SameLoans machine.old machine.new }
{
    let mut found = [0; 1024];
    let rows = &mut *machine.rows;
    let names = &mut *machine.names;
    let nodes = &mut *machine.nodes;
    let n = resume_scan(
        machine.sheet,
        machine.program,
        rows,
        names,
        nodes,
        name,
        input,
        outlines,
        &mut found,
    );
    let content = has_content(get(rows, HELD_KIND), self_closing);
    finish_held(machine, name, content, &found[0..n])
}

/// The attributes of the tag that waits: its input and outlines in fours (name start, name end, value start, value end).
pub fn attributes(
    machine: &mut Machine,
    self_closing: bool,
    input: &[u8],
    outlines: &[u32],
) -> Result<Answer, Refusal>
    ensures answered { outcome (reply_of result) (contents machine.new) ≡ attributes_call machine.old.sheet.now machine.old.program.now (contents machine.old) self_closing input.now outlines.now }
    ensures lent { SameLoans machine.old machine.new }
{
    check_machine(machine)?;
    let rows = &mut *machine.rows;
    check_attributes(rows, input, outlines)?;
    let names = &mut *machine.names;
    let mut low = [0; 64];
    let n = held_name(rows, names, &mut low);
    attributes_named(machine, &low[0..n], self_closing, input, outlines)
}
