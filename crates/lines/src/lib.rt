//! Lines of text other than a match's, put into a buffer (01, section 8). Past its end nothing is written; each function answers where its text ends.
#![tactic(auto)]

ghost use Rattle.std.specs.Prelude.{◌≡◌, ◌+◌, ◌≤◌, length};
ghost use Rattle.text.specs.Places.{IsBufferPlace};
ghost use Rattle.text.specs.Text.{Wrote};
ghost use Rattle.lines.specs.Lines.{attrs_line, number_line, pop_line, refused_line, sheet_line, bad_trace_line};

use text::{put_decimal, put_text};

pub fn put_attrs(out: &mut [u8], at: usize) -> usize
    requires { IsBufferPlace at }
    ensures { Wrote out.old at attrs_line result out.new }
{
    put_text(out, at, b"attrs\n")
}

// A word, a number, a new line.
fn put_number(out: &mut [u8], at: usize, word: &[u8], n: u64) -> usize
    requires { (at ≤ 4294967400) × (length word.now ≤ 20) }
    ensures wrote { Wrote out.old at (number_line word.now n) result out.new }
    ensures upper_bound { result ≤ at + length word.now + 21 }
{
    let mut next = put_text(out, at, word);
    next = put_decimal(out, next, n);
    put_text(out, next, b"\n")
}

pub fn put_pop(out: &mut [u8], at: usize, n: usize) -> usize
    requires { IsBufferPlace at }
    ensures wrote { Wrote out.old at (pop_line n) result out.new }
    ensures upper_bound { result ≤ at + 25 }
{
    put_number(out, at, b"pop ", n as u64)
}

pub fn put_refused(out: &mut [u8], at: usize, n: u32) -> usize
    requires { IsBufferPlace at }
    ensures wrote { Wrote out.old at (refused_line n) result out.new }
    ensures upper_bound { result ≤ at + 29 }
{
    put_number(out, at, b"refused ", n as u64)
}

pub fn put_sheet_refused(out: &mut [u8], at: usize, n: u8, place: usize) -> usize
    requires { IsBufferPlace at }
    ensures wrote { Wrote out.old at (sheet_line n place) result out.new }
    ensures upper_bound { result ≤ at + 59 }
{
    let mut next = put_text(out, at, b"sheet refused ");
    next = put_decimal(out, next, n as u64);
    put_number(out, next, b" at ", place as u64)
}

pub fn put_bad_trace(out: &mut [u8], at: usize, place: u64) -> usize
    requires { IsBufferPlace at }
    ensures wrote { Wrote out.old at (bad_trace_line place) result out.new }
    ensures upper_bound { result ≤ at + 34 }
{
    put_number(out, at, b"bad trace at ", place)
}
