//! Reads a sheet and then a trace from standard input, and writes a line for each record.
//! A read or a write that fails is said on standard error, and ends the program with status 2.
#![tactic(auto)]

ghost use Rattle.std.specs.Prelude.{◌≡◌, length};

use block_ends::Halt;
use lines::{put_refused, put_sheet_refused};
use making::{Unmade, fresh_machine};
use stack::machine::Machine;
use std::io::{Read, Result, Write};
use std::process::ExitCode;
use trace_blocks::{Progress, read_sheet, turn};

// A proved loop has to end: so many turns are more than any run takes, and no place of a trace wraps in them.
const TURNS: u64 = 1 << 46;

// Answers a trace block by block, until it is over.
fn run<R: Read, W: Write>(
    reader: &mut R,
    writer: &mut W,
    machine: &mut Machine,
    input: &mut [u8],
    out: &mut [u8],
) -> Result<()>
    requires { (length input.old ≡ 131072) × (length out.old ≡ 65536) }
{
    let mut p = Progress {
        at: 0,
        end: 0,
        place: 0,
        last: false,
        halt: Halt::Full,
    };
    for _ in 0..TURNS {
        p = turn(reader, writer, p, machine, input, out)?;
        if matches!(p.halt, Halt::Over) {
            return Ok(());
        }
    }
    Ok(())
}

// Answers an input: its sheet, then its trace.
fn answer<R: Read, W: Write>(reader: &mut R, writer: &mut W) -> Result<()> {
    // The longest sheet.
    let mut sheet = [0; 65536];
    let mut program = [0u32; 8192];
    let mut rows = [0u32; 3096];
    let mut names = [0u8; 49216];
    let mut ids = [0u64; 514];
    let mut nodes = [0u16; 6144];
    // A block of the trace, which is two of the longest records, and its lines.
    let mut input = [0; 131072];
    let mut out = [0; 65536];
    let n = read_sheet(reader, &mut sheet)?;
    let made = fresh_machine(
        &sheet[..n],
        false,
        &mut program,
        &mut rows,
        &names,
        &ids,
        &nodes,
    );
    match made {
        Ok(()) => {
            let mut machine = Machine {
                sheet: &sheet[..n],
                program: &program,
                rows: &mut rows,
                names: &mut names,
                ids: &mut ids,
                nodes: &mut nodes,
            };
            run(reader, writer, &mut machine, &mut input, &mut out)
        }
        Err(Unmade::Sheet(fault)) => {
            let wrote = put_sheet_refused(&mut out, 0, fault.refusal.number(), fault.place);
            writer.write_all(&out[..wrote])
        }
        Err(Unmade::Refused(refusal)) => {
            let wrote = put_refused(&mut out, 0, refusal.number());
            writer.write_all(&out[..wrote])
        }
    }
}

fn main(rt: HostRuntime) -> ExitCode {
    match answer(&mut rt.stdin(), &mut rt.stdout()) {
        Ok(()) => ExitCode::SUCCESS,
        Err(error) => {
            let _ = eprintln!(rt; "selectors: {error}");
            ExitCode::from(2)
        }
    }
}
