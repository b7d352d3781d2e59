//! Replays the cases of data/cases (tools/sheet_cases.py says how they are written): writes `N agree`, or the first case that differs.
//! A read or a write that fails is said on standard error, and ends the program with status 2.
#![tactic(auto)]

ghost use Rattle.std.specs.Prelude.{◌≡◌, length};

use cells::numbers::{u16_at, u32_at};
use compiler::compile;
use refusals::Fault;
use sheet::check_sheet;
use std::fs;
use std::io::{Read, Result, Write, writer};
use std::process::ExitCode;
use std::rt::Files;
use streams::read_full;

#[derive(Clone, Copy)]
enum Verdict {
    Agrees,
    Differs,
    Broken,
}

// The number and the place of a fault; zeros where there is none.
fn told(fault: Option<Fault>) -> (u8, usize) {
    match fault {
        Some(fault) => (fault.refusal.number(), fault.place),
        None => (0, 0),
    }
}

// Both functions give the number and the place; the checker knows nothing of 15.
fn judge(s: &[u8], store: &mut [u32], number: u8, place: usize) -> Verdict {
    let plain = if number == 15 { 0 } else { number };
    if told(compile(s, store).err()) == (number, place)
        && told(check_sheet(s).err()) == (plain, place)
    {
        Verdict::Agrees
    } else {
        Verdict::Differs
    }
}

// Reads a case and judges it; none where no case follows.
fn replay<R: Read>(
    reader: &mut R,
    sheet: &mut [u8; 65536],
    store: &mut [u32; 8192],
) -> Result<Option<Verdict>> {
    let mut head = [0u8; 11];
    let got = read_full(reader, &mut head)?;
    if got == 0 {
        return Ok(None);
    }
    if got < 11 {
        return Ok(Some(Verdict::Broken));
    }
    let n = u32_at(&head, 0);
    let places = u16_at(&head, 4);
    if 65536 < n || 1024 < places {
        return Ok(Some(Verdict::Broken));
    }
    if read_full(reader, &mut sheet[0..n])? < n {
        return Ok(Some(Verdict::Broken));
    }
    let end = places * 8;
    Ok(Some(judge(&sheet[..n], &mut store[..end], head[6], u32_at(&head, 7))))
}

fn replay_all<R: Read, W: Write>(
    reader: &mut R,
    to: &mut W,
    sheet: &mut [u8; 65536],
    store: &mut [u32; 8192],
) -> Result<()> {
    for n in 0..1_000_000_000u64 {
        match replay(reader, sheet, store)? {
            Some(Verdict::Agrees) => {}
            Some(Verdict::Differs) => return writeln!(to, "case {n} differs"),
            Some(Verdict::Broken) => return writeln!(to, "case {n} cannot be read"),
            None => return writeln!(to, "{n} agree"),
        }
    }
    Ok(())
}

fn replay_file(rt: &(impl Files + Print)) -> Result<()> {
    // The longest sheet, and 1,024 instructions.
    let mut sheet = [0; 65536];
    let mut store = [0; 8192];
    let mut file = fs::open(rt, "cases")?;
    replay_all(&mut file, &mut writer(rt), &mut sheet, &mut store)
}

fn main(rt: HostRuntime) -> ExitCode {
    match replay_file(&rt) {
        Ok(()) => ExitCode::SUCCESS,
        Err(error) => {
            let _ = eprintln!(rt; "sheet_vectors: {error}");
            ExitCode::from(2)
        }
    }
}
