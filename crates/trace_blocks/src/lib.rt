//! A trace read, answered and written block by block: a cut record is kept for the next block.
#![tactic(auto)]

ghost use Rattle.std.specs.Prelude.{◌≡◌, ◌≢◌, ◌+◌, ◌<◌, ◌≤◌, ◌⊎◌, length, take, drop, IfSome, IfOk, IfErr, OnOk, OnErr};
ghost use Rattle.std.specs.IoError.{error_kind};
ghost use Rattle.std.specs.Io.KnownBytes.{Appends, Consumes, IsAtEnd, Keeps};
ghost use Rattle.records.specs.Sheets.{sheet_length, sheet_end};
ghost use Rattle.stack.specs.Lent.{contents, SameLoans};
ghost use Rattle.trace_blocks.specs.Progress.{Sound, run_of, advanced, Refilled, Turned, InFront};
ghost use Rattle.streams.specs.Failing.{ConsumesFront};

use block_ends::{Fed, Halt};
use records::{keep, sheet_length};
use stack::machine::Machine;
use std::io::{ErrorKind, Read, Result, Write};
use streams::{read_behind, read_between};
use trace::feed;

// The bytes of the input buffer that are still to be read, where they stand in the trace, whether the input has ended, and how the
// last run halted; `Full` where the next one may go on.
#[derive(Clone, Copy)]
pub struct Progress {
    pub at: usize,
    pub end: usize,
    pub place: u64,
    pub last: bool,
    pub halt: Halt,
}

// A record that was cut goes to the front of the buffer, and what is read stands behind it.
fn refill<R: Read>(reader: &mut R, p: Progress, input: &mut [u8]) -> Result<Progress>
    requires { Sound p (length input.old) }
    ensures sound { IfOk result (λ q. Sound q (length input.new) × (q.place ≡ p.place)) }
    ensures value { IfOk result (λ q. Refilled p.last (R.remaining reader.old) (R.remaining reader.new) p input.old q input.new) }
    ensures failed { OnErr result (Keeps (R.remaining reader.old) (R.remaining reader.new)) }
    ensures kept { OnErr result (InFront p input.old input.new) }
    ensures retried { IfErr result (λ e. error_kind e ≢ ErrorKind.Interrupted) }
{
    if p.last {
        return Ok(Progress {
            halt: Halt::Over,
            ..p
        });
    }
    let kept = keep(input, p.at, p.end);
    let more = read_behind(reader, input, kept)?;
    Ok(Progress {
        at: 0,
        end: kept + more,
        last: more == 0,
        halt: Halt::Full,
        ..p
    })
}

// What is still to be done after a run over the buffer's bytes.
fn advance(p: Progress, fed: Fed) -> Progress
    requires { (p.at + fed.used ≤ p.end) × (p.place ≤ 9223372036854775808) × (fed.used ≤ 131072) }
    ensures bounds { (result.at ≤ result.end) × (result.end ≡ p.end) × (result.place ≤ p.place + 131072) }
    ensures value { result ≡ advanced p fed }
{
    Progress {
        at: p.at + fed.used,
        place: p.place + fed.used as u64,
        halt: fed.halt,
        ..p
    }
}

// Answers what the buffer holds, and writes the lines.
fn answer_block<W: Write>(
    writer: &mut W,
    p: Progress,
    machine: &mut Machine,
    input: &[u8],
    out: &mut [u8],
) -> Result<Progress>
    requires { Sound p (length input.now) × (length input.now ≡ 131072) × (length out.old ≡ 65536) × (p.place ≤ 9223372036854775808) }
    ensures sound { IfOk result (λ q. Sound q (length input.now) × (q.place ≤ p.place + 131072)) }
    ensures lent { SameLoans machine.old machine.new }
    ensures answered { let run = run_of machine.old.sheet.now machine.old.program.now p input.now out.old (contents machine.old) in (out.new ≡ run.out) × (contents machine.new ≡ run.after) }
    ensures value { let run = run_of machine.old.sheet.now machine.old.program.now p input.now out.old (contents machine.old) in IfOk result (λ q. q ≡ advanced p run.fed) }
    // After a failed write nothing is known of what the writer took.
    ensures written { let run = run_of machine.old.sheet.now machine.old.program.now p input.now out.old (contents machine.old) in OnOk result (Appends (W.contents writer.old) (W.contents writer.new) (take run.fed.wrote run.out)) }
{
    let fed = feed(machine, &input[p.at..p.end], p.last, p.place, out);
    writer.write_all(&out[..fed.wrote])?;
    Ok(advance(p, fed))
}

// Answers what the buffer holds, and reads on where it wants more.
pub fn turn<R: Read, W: Write>(
    reader: &mut R,
    writer: &mut W,
    p: Progress,
    machine: &mut Machine,
    input: &mut [u8],
    out: &mut [u8],
) -> Result<Progress>
    requires { Sound p (length input.old) × (length input.old ≡ 131072) × (length out.old ≡ 65536) × (p.place ≤ 9223372036854775808) }
    ensures sound { IfOk result (λ q. Sound q (length input.new) × (q.place ≤ p.place + 131072)) }
    ensures lent { SameLoans machine.old machine.new }
    ensures answered { let run = run_of machine.old.sheet.now machine.old.program.now p input.old out.old (contents machine.old) in (out.new ≡ run.out) × (contents machine.new ≡ run.after) }
    ensures value { let run = run_of machine.old.sheet.now machine.old.program.now p input.old out.old (contents machine.old) in let next = advanced p run.fed in IfOk result (λ q. Turned next.halt (R.remaining reader.old) (R.remaining reader.new) next input.old q input.new) }
    // After a failed write nothing is known of what the writer took.
    ensures written { let run = run_of machine.old.sheet.now machine.old.program.now p input.old out.old (contents machine.old) in OnOk result (Appends (W.contents writer.old) (W.contents writer.new) (take run.fed.wrote run.out)) }
    ensures failed { OnErr result (Keeps (R.remaining reader.old) (R.remaining reader.new)) }
    ensures kept { let run = run_of machine.old.sheet.now machine.old.program.now p input.old out.old (contents machine.old) in OnErr result ((input.new ≡ input.old) ⊎ InFront (advanced p run.fed) input.old input.new) }
{
    let next = answer_block(writer, p, machine, input, out)?;
    match next.halt {
        Halt::Hungry => refill(reader, next, input),
        _ => Ok(next),
    }
}

// Reads the sheet off the front of the input: as many bytes as its length field says, at most 65,536, or all there are.
pub fn read_sheet<R: Read>(reader: &mut R, sheet: &mut [u8]) -> Result<usize>
    requires { length sheet.old ≡ 65536 }
    ensures upper_bound { IfOk result (λ n. n ≤ 65536) }
    ensures said { IfOk result (λ n. 5 ≤ n → n ≤ sheet_length sheet.new) }
    ensures value { IfOk result (λ n. IfSome (R.remaining reader.old) (λ input. (n ≡ sheet_end input) × (take n sheet.new ≡ take n input))) }
    ensures taken { IfOk result (λ n. 5 ≤ n → Consumes (R.remaining reader.old) (R.remaining reader.new) (take n sheet.new)) }
    ensures failed { OnErr result (ConsumesFront (R.remaining reader.old) (R.remaining reader.new) sheet.new) }
    ensures retried { IfErr result (λ e. error_kind e ≢ ErrorKind.Interrupted) }
{
    let got = read_between(reader, sheet, 0, 5)?;
    if got < 5 {
        return Ok(got);
    }
    let length = sheet_length(sheet);
    if length <= 5 {
        return Ok(length);
    }
    let more = read_between(reader, sheet, 5, length)?;
    Ok(5 + more)
}
