//! A trace answered record by record, block by block (01, section 8): whole records in, lines out.
#![tactic(auto)]

ghost use Rattle.std.specs.Prelude.{◌≡◌, ◌+◌, ◌≤◌, length};
ghost use Rattle.stack.specs.Lent.{contents, SameLoans};
ghost use Rattle.trace.specs.Run.{ran, answers_from, feed_of};

use answers::answer;
use block_ends::{Fed, Halt, bad_trace, cut_short, first_record, no_version};
use cells::part_of;
use records::record_end;
use stack::machine::Machine;

// Answers the records of a block from `first` on.
fn answer_records(
    machine: &mut Machine,
    block: &[u8],
    first: usize,
    last: bool,
    place: u64,
    out: &mut [u8],
) -> Fed
    requires { (length block.now ≤ 1048576) × (first ≤ length block.now) × (place ≤ 9223372036854775808) × (length out.old ≤ 1048576) }
    ensures nodes_after { ran result out.new (contents machine.new) ≡ answers_from machine.old.sheet.now machine.old.program.now block.now last place (length block.now) first 0 out.old (contents machine.old) }
    ensures used_in_bounds { (result.used ≤ length block.now) × (result.wrote ≤ length out.new) }
    ensures lent { SameLoans machine.old machine.new }
{
    let mut at = first;
    let mut wrote = 0;
    while at < block.len() {
        if out.len() - wrote < 8192 {
            return Fed {
                used: at,
                wrote,
                halt: Halt::Full,
            };
        }
        let Some(end) = record_end(block, at) else {
            return cut_short(out, at, wrote, place, last);
        };
        let body = part_of(block, at + 2, end);
        let Some(next) = answer(machine, body, out, wrote) else {
            return bad_trace(out, at, wrote, place);
        };
        wrote = next;
        at = end;
    }
    Fed {
        used: at,
        wrote,
        halt: Halt::Hungry,
    }
}

// Answers the records of a block that stands at `place` of the trace; the version stands first. `last`: no bytes come after the block.
#[tactic(auto, unfolding(crate::specs::Run::feed_of, crate::specs::Run::feed_by))]
pub fn feed(machine: &mut Machine, block: &[u8], last: bool, place: u64, out: &mut [u8]) -> Fed
    requires { (length block.now ≤ 1048576) × (place ≤ 9223372036854775808) × (8192 ≤ length out.old) × (length out.old ≤ 1048576) }
    ensures nodes_after { ran result out.new (contents machine.new) ≡ feed_of machine.old.sheet.now machine.old.program.now block.now last place out.old (contents machine.old) }
    ensures used_in_bounds { (result.used ≤ length block.now) × (result.wrote ≤ length out.new) }
    ensures lent { SameLoans machine.old machine.new }
{
    match first_record(block, place) {
        Some(first) => answer_records(machine, block, first, last, place, out),
        None => {
            let faulty = no_version(block, last);
            cut_short(out, 0, 0, 0, faulty)
        }
    }
}
