//! A call of the machine and the line that answers it.
#![tactic(auto)]

ghost use Rattle.std.specs.Prelude.{◌≡◌, ◌+◌, ◌≤◌, Some};
ghost use Rattle.stack.specs.Lent.{contents, SameLoans};
ghost use Rattle.stack.specs.Stores.{stores};
ghost use Rattle.replies.specs.Replies.{answered, start_turn, attributes_turn, end_turn, saying};

use reply_lines::{put_popped, put_reply};
use stack::machine::Machine;

pub fn answer_start(
    machine: &mut Machine,
    namespace: u32,
    name: &[u8],
    out: &mut [u8],
    at: usize,
) -> usize
    requires { at ≤ 4294967296 }
    ensures nodes_after { answered (Some result) out.new (contents machine.new) ≡ saying (start_turn machine.old.sheet.now machine.old.program.now (contents machine.old) namespace name.now) out.old at }
    ensures upper_bound { result ≤ at + 4096 }
    ensures lent { SameLoans machine.old machine.new }
{
    let reply = starts::start(machine, namespace, name);
    put_reply(out, at, reply)
}

pub fn answer_attributes(
    machine: &mut Machine,
    closing: bool,
    body: &[u8],
    outlines: &[u32],
    out: &mut [u8],
    at: usize,
) -> usize
    requires { at ≤ 4294967296 }
    ensures nodes_after { answered (Some result) out.new (contents machine.new) ≡ saying (attributes_turn machine.old.sheet.now machine.old.program.now (contents machine.old) closing body.now outlines.now) out.old at }
    ensures upper_bound { result ≤ at + 4096 }
    ensures lent { SameLoans machine.old machine.new }
{
    let reply = resumes::attributes(machine, closing, body, outlines);
    put_reply(out, at, reply)
}

// The ids of the popped are not printed.
// Kept as it is: who has names, ids and nodes only to read can call it too, and a Machine has them to write.
pub fn answer_end(
    sheet: &[u8],
    program: &[u32],
    rows: &mut [u32],
    names: &[u8],
    ids: &[u64],
    nodes: &[u16],
    name: &[u8],
    out: &mut [u8],
    at: usize,
) -> usize
    requires { at ≤ 4294967296 }
    ensures nodes_after { answered (Some result) out.new (stores rows.new names.now ids.now nodes.now) ≡ saying (end_turn sheet.now program.now (stores rows.old names.now ids.now nodes.now) name.now) out.old at }
    ensures upper_bound { result ≤ at + 4096 }
{
    let mut popped = [0; 512];
    let answer = ends::end(sheet, program, rows, names, ids, nodes, name, &mut popped);
    put_popped(out, at, answer)
}
