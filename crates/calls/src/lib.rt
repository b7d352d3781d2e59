//! Calls of a library case, each read from the input and made straight to the machine.
#![tactic(auto)]

ghost use Rattle.std.specs.Prelude.{◌≡◌, ◌+◌, ◌*◌, ◌≤◌, ◌<◌, length};
ghost use Rattle.cells.specs.Numbers.{part};
ghost use Rattle.stack.specs.Lent.{SameLoans};
ghost use Rattle.calls.specs.States.{Within, Ready, Left};

use case_lines::{put_made, put_sets, put_top};
use cells::numbers::u32_at;
use cells::part_of;
use ends::id_set;
use making::fresh_machine;
use replies::{answer_attributes, answer_start};
use reply_lines::put_popped;
use stack::machine::Machine;

// Where the next call stands and where the next line goes, where the machine's sheet lies in the input, and its instruction store's size.
#[derive(Clone, Copy, Default)]
pub struct State {
    pub at: usize,
    pub wrote: usize,
    pub sheet: usize,
    pub sheet_end: usize,
    pub size: usize,
}

impl State {
    // The machine's sheet, where it lies in the input.
    pub fn sheet<'i>(self, input: &'i [u8]) -> &'i [u8]
        ensures { result.now ≡ part input.now self.sheet self.sheet_end }
    {
        part_of(input, self.sheet, self.sheet_end)
    }
}

// Where the string at a place ends, its length first.
fn string_end(input: &[u8], at: usize) -> usize
    requires { (length input.now ≤ 131072) × (at ≤ 1048576) }
    ensures { result ≤ 131072 }
{
    (at + 4 + u32_at(input, at)).min(input.len())
}

pub fn make_call(
    s: State,
    input: &[u8],
    program: &mut [u32],
    rows: &mut [u32],
    names: &[u8],
    ids: &[u64],
    nodes: &[u16],
    out: &mut [u8],
) -> State
    requires { Ready s input.now }
    ensures { (result.at ≤ 131072) × (result.wrote ≤ s.wrote + 4096) × (result.size ≤ length program.new) }
{
    let at = s.at;
    let esi = u32_at(input, at + 1);
    let size = (u32_at(input, at + 5) * 8).min(program.len());
    let end = string_end(input, at + 9);
    let made = fresh_machine(
        part_of(input, at + 13, end),
        esi != 0,
        &mut program[0..size],
        rows,
        names,
        ids,
        nodes,
    );
    State {
        at: end,
        wrote: put_made(out, s.wrote, made),
        sheet: at + 13,
        sheet_end: end,
        size,
    }
}

pub fn start_call(s: State, input: &[u8], machine: &mut Machine, out: &mut [u8]) -> State
    requires { Ready s input.now }
    ensures bounds { (result.at ≤ 131072) × (result.wrote ≤ s.wrote + 4096) × (result.size ≡ s.size) }
    ensures lent { SameLoans machine.old machine.new }
{
    let at = s.at;
    let namespace = u32_at(input, at + 1) as u32;
    let end = string_end(input, at + 5);
    let name = part_of(input, at + 9, end);
    let wrote = answer_start(machine, namespace, name, out, s.wrote);
    State {
        at: end,
        wrote,
        ..s
    }
}

// Reads numbers from a place on, and answers how many there is room for.
fn read_numbers(input: &[u8], at: usize, n: usize, room: &mut [u32]) -> usize
    requires { (at ≤ 1048576) × (length room.old ≤ 65536) }
    ensures { result ≤ length room.new }
{
    let count = n.min(room.len());
    for (i, cell) in room[..count].iter_mut().enumerate() {
        *cell = u32_at(input, at + i * 4) as u32;
    }
    count
}

pub fn attributes_call(s: State, input: &[u8], machine: &mut Machine, out: &mut [u8]) -> State
    requires { Ready s input.now }
    ensures bounds { (result.at ≤ 262144) × (result.wrote ≤ s.wrote + 4096) × (result.size ≡ s.size) }
    ensures lent { SameLoans machine.old machine.new }
{
    let at = s.at;
    let closing = u32_at(input, at + 1);
    let end = string_end(input, at + 5);
    let text = part_of(input, at + 9, end);
    let mut outlines = [0; 2048];
    let n = read_numbers(input, end + 4, u32_at(input, end), &mut outlines);
    let wrote = answer_attributes(machine, closing != 0, text, &outlines[0..n], out, s.wrote);
    State {
        at: end + 4 + n * 4,
        wrote,
        ..s
    }
}

fn end_lines(
    sheet: &[u8],
    program: &[u32],
    rows: &mut [u32],
    names: &[u8],
    ids: &[u64],
    nodes: &[u16],
    name: &[u8],
    popped: &mut [u64],
    out: &mut [u8],
    at: usize,
) -> usize
    requires { at ≤ 131072 }
    ensures { result ≤ 143360 }
{
    let answer = ends::end(sheet, program, rows, names, ids, nodes, name, popped);
    let next = put_popped(out, at, answer);
    put_sets(out, next, popped, answer)
}

// Kept as it is: who has names, ids and nodes only to read can call it too, and a Machine has them to write.
pub fn end_call(
    s: State,
    input: &[u8],
    program: &[u32],
    rows: &mut [u32],
    names: &[u8],
    ids: &[u64],
    nodes: &[u16],
    out: &mut [u8],
) -> State
    requires { Ready s input.now }
    ensures { Left result × (result.size ≡ s.size) }
{
    let at = s.at;
    let room = u32_at(input, at + 1).min(512);
    let end = string_end(input, at + 5);
    let name = part_of(input, at + 9, end);
    let mut popped = [0; 512];
    let wrote = end_lines(
        s.sheet(input),
        program,
        rows,
        names,
        ids,
        nodes,
        name,
        &mut popped[0..room],
        out,
        s.wrote,
    );
    State {
        at: end,
        wrote,
        ..s
    }
}

// Kept as it is: all stores are read here, and a Machine has them to write.
pub fn ids_call(
    s: State,
    input: &[u8],
    program: &[u32],
    rows: &[u32],
    names: &[u8],
    ids: &[u64],
    nodes: &[u16],
    out: &mut [u8],
) -> State
    requires { Within s }
    ensures { Left result × (result.size ≡ s.size) }
{
    let reply = id_set(s.sheet(input), program, rows, names, ids, nodes);
    State {
        at: s.at + 1,
        wrote: put_top(out, s.wrote, reply),
        ..s
    }
}
