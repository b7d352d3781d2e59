//! Library cases: all calls of one, in turn.
#![tactic(auto)]

ghost use Rattle.std.specs.Prelude.{◌≡◌, ◌≤◌, ◌<◌, length};
ghost use Rattle.calls.specs.States.{Ready, Left};

use calls::{State, attributes_call, end_call, ids_call, make_call, start_call};
use cells::get;
use stack::machine::Machine;

/// A call, as its first byte says.
#[derive(Clone, Copy, Debug, PartialEq, Eq)]
enum Call {
    Make,
    Start,
    Attributes,
    End,
    Ids,
}

impl From<u8> for Call {
    // Any other byte asks for the id set.
    fn from(byte: u8) -> Call {
        match byte {
            1 => Call::Make,
            2 => Call::Start,
            3 => Call::Attributes,
            4 => Call::End,
            _ => Call::Ids,
        }
    }
}

// The call at hand.
fn one_call(
    s: State,
    input: &[u8],
    program: &mut [u32],
    rows: &mut [u32],
    names: &mut [u8],
    ids: &mut [u64],
    nodes: &mut [u16],
    out: &mut [u8],
) -> State
    requires { Ready s input.now × (s.size ≤ length program.old) }
    ensures { Left result × (result.size ≤ length program.new) }
{
    let call = Call::from(get(input, s.at));
    match call {
        Call::Make => make_call(s, input, program, rows, names, ids, nodes, out),
        Call::End => end_call(s, input, &program[..s.size], rows, names, ids, nodes, out),
        Call::Ids => ids_call(s, input, &program[..s.size], rows, names, ids, nodes, out),
        Call::Start | Call::Attributes => {
            let mut machine = Machine {
                sheet: s.sheet(input),
                program: &program[..s.size],
                rows,
                names,
                ids,
                nodes,
            };
            if call == Call::Start {
                start_call(s, input, &mut machine, out)
            } else {
                attributes_call(s, input, &mut machine, out)
            }
        }
    }
}

// Past this many bytes no line of a case begins.
const LONGEST: usize = 131072;

const MOST_CALLS: u32 = 65536;

// All calls of a case, so many at most. Answers where the lines end.
pub fn replay_calls(
    input: &[u8],
    program: &mut [u32],
    rows: &mut [u32],
    names: &mut [u8],
    ids: &mut [u64],
    nodes: &mut [u16],
    out: &mut [u8],
) -> usize
    requires { (length input.now ≤ 131072) × (length out.old ≡ 131072) }
    ensures { result ≤ length out.new }
{
    let mut s = State::default();
    for _ in 0..MOST_CALLS {
        if input.len() <= s.at {
            return s.wrote;
        }
        s = one_call(s, input, program, rows, names, ids, nodes, out);
        if LONGEST < s.wrote {
            return 0;
        }
    }
    0
}
