//! Replays the cases of data/cases through the library and compares byte for byte; tools/vectors writes them and says their format.
//! Says how many agree, or names the first case that differs and the byte at which it does.
//! A read or a write that fails is said on standard error, and ends the program with status 2.
#![tactic(auto)]

ghost use Rattle.std.specs.Prelude.{◌≡◌, ◌+◌, ◌≤◌, ◌<◌, length, IfOk};

use cells::numbers::u32_at;
use inputs::whole;
use replays::replay_calls;
use std::fs;
use std::io::{Read, Result, Write, writer};
use std::process::ExitCode;
use std::rt::Files;
use streams::read_full;

/// What a case runs: a whole input, as the program does, or calls of the library.
#[derive(Clone, Copy, Debug, PartialEq, Eq)]
enum Kind {
    Program,
    Library,
}

impl From<u8> for Kind {
    fn from(byte: u8) -> Kind {
        match byte {
            1 => Kind::Program,
            _ => Kind::Library,
        }
    }
}

#[derive(Clone, Copy, Debug, PartialEq, Eq)]
enum Verdict {
    Agrees(Kind),
    Differs,
}

// Where two texts first differ, or the length of the first.
fn first_difference(a: &[u8], b: &[u8]) -> usize {
    a.iter()
        .zip(b)
        .position(|(x, y)| x != y)
        .unwrap_or(a.len().min(b.len()))
}

// Reads a string of the file: its length, then its bytes. More bytes than there is room for is as if there were none.
fn read_string<R: Read>(reader: &mut R, room: &mut [u8]) -> Result<usize>
    ensures { IfOk result (λ n. n ≤ length room.new) }
{
    let mut head = [0u8; 4];
    if read_full(reader, &mut head)? < 4 {
        return Ok(0);
    }
    let n = u32_at(&head, 0);
    if room.len() < n {
        return Ok(0);
    }
    read_full(reader, &mut room[0..n])
}

// Runs a case of this kind on its input and writes what it answers. The stores are no machine's before it makes one.
fn answers(kind: Kind, input: &[u8], out: &mut [u8]) -> usize
    requires { (length input.now ≤ 131072) × (length out.old ≡ 131072) }
    ensures { result ≤ length out.new }
{
    let mut program = [2880154539u32; 8192];
    let mut rows = [2880154539u32; 3096];
    let mut names = [171u8; 49216];
    let mut ids = [171u64; 514];
    let mut nodes = [43947u16; 6144];
    match kind {
        Kind::Program => whole(
            input,
            &mut program,
            &mut rows,
            &mut names,
            &mut ids,
            &mut nodes,
            out,
        ),
        Kind::Library => replay_calls(
            input,
            &mut program,
            &mut rows,
            &mut names,
            &mut ids,
            &mut nodes,
            out,
        ),
    }
}

// Compares, and names a case that differs.
fn compare<W: Write>(
    to: &mut W,
    kind: Kind,
    name: &[u8],
    got: &[u8],
    expected: &[u8],
) -> Result<Verdict> {
    let at = first_difference(got, expected);
    if at < got.len() {
        to.write_all(name)?;
        writeln!(to, " differs at byte {at}")?;
        return Ok(Verdict::Differs);
    }
    if at < expected.len() {
        to.write_all(name)?;
        writeln!(to, " ends at byte {at}")?;
        return Ok(Verdict::Differs);
    }
    Ok(Verdict::Agrees(kind))
}

// Reads a case and runs it; none where no case follows.
fn replay<R: Read, W: Write>(reader: &mut R, to: &mut W) -> Result<Option<Verdict>> {
    let mut kind = [0; 1];
    let mut name = [0; 256];
    // The largest input or output of a case.
    let mut input = [0; 131072];
    let mut expected = [0; 131072];
    let mut out = [0; 131072];
    if read_full(reader, &mut kind)? < 1 {
        return Ok(None);
    }
    let kind = Kind::from(kind[0]);
    let named = read_string(reader, &mut name)?;
    let n = read_string(reader, &mut input)?;
    let m = read_string(reader, &mut expected)?;
    let wrote = answers(kind, &input[..n], &mut out);
    let verdict = compare(to, kind, &name[..named], &out[..wrote], &expected[..m])?;
    Ok(Some(verdict))
}

const MOST_CASES: u64 = 1_000_000;

// Replays cases as long as they agree, and says how many do where all of them did.
fn replay_all<R: Read, W: Write>(reader: &mut R, to: &mut W) -> Result<()> {
    let mut programs = 0u64;
    let mut libraries = 0u64;
    for _ in 0..MOST_CASES {
        match replay(reader, to)? {
            Some(Verdict::Agrees(Kind::Program)) => programs += 1,
            Some(Verdict::Agrees(Kind::Library)) => libraries += 1,
            Some(Verdict::Differs) => return Ok(()),
            None => {
                return writeln!(
                    to,
                    "{programs} program cases and {libraries} library runs agree"
                );
            }
        }
    }
    Ok(())
}

fn replay_file(rt: &(impl Files + Print)) -> Result<()> {
    let mut file = fs::open(rt, "cases")?;
    replay_all(&mut file, &mut writer(rt))
}

fn main(rt: HostRuntime) -> ExitCode {
    match replay_file(&rt) {
        Ok(()) => ExitCode::SUCCESS,
        Err(error) => {
            let _ = eprintln!(rt; "vectors: {error}");
            ExitCode::from(2)
        }
    }
}
