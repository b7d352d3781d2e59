//! A whole input at once (01, section 8): its sheet, then its trace.
#![tactic(auto)]

ghost use Rattle.std.specs.Prelude.{◌≡◌, ◌≤◌, length};
ghost use Rattle.stack.specs.Stores.{stores};
ghost use Rattle.inputs.specs.Inputs.{whole_run, whole_of};

use lines::{put_refused, put_sheet_refused};
use making::{Unmade, fresh_machine};
use records::sheet_end;
use stack::machine::Machine;
use trace::feed;

// Writes the lines of an input and answers how many bytes they are. Lines past the end of `out` are lost.
pub fn whole(
    input: &[u8],
    program: &mut [u32],
    rows: &mut [u32],
    names: &mut [u8],
    ids: &mut [u64],
    nodes: &mut [u16],
    out: &mut [u8],
) -> usize
    requires { (length input.now ≤ 1048576) × (8192 ≤ length out.old) × (length out.old ≤ 1048576) }
    ensures nodes_after { whole_run result program.new out.new (stores rows.new names.new ids.new nodes.new) ≡ whole_of input.now program.old out.old (stores rows.old names.old ids.old nodes.old) }
    ensures upper_bound { result ≤ length out.new }
{
    let n = sheet_end(input);
    let sheet = &input[0..n];
    let made = fresh_machine(sheet, false, program, rows, names, ids, nodes);
    match made {
        Ok(()) => {
            let mut machine = Machine {
                sheet,
                program,
                rows,
                names,
                ids,
                nodes,
            };
            let fed = feed(&mut machine, &input[n..], true, 0, out);
            fed.wrote
        }
        Err(unmade) => match unmade {
            Unmade::Sheet(fault) => put_sheet_refused(out, 0, fault.refusal.number(), fault.place),
            Unmade::Refused(refusal) => put_refused(out, 0, refusal.number()),
        },
    }
}
