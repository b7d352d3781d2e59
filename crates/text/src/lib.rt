//! Text and decimal numbers put into a buffer. Past its end nothing is written; each function answers where its text ends.
#![tactic(auto)]

ghost use Rattle.std.specs.Prelude.{◌≡◌, ◌+◌, ◌≤◌, length};
ghost use Rattle.text.specs.Places.{IsTextPlace};
ghost use Rattle.text.specs.Text.{digits, decimal, Wrote};

use cells::put;

// Kept as it is: memory is fixed, so text goes into a lent buffer from a place on, as `Wrote` says, and what is past its end is lost; a String or a Display has no place.
pub fn put_text(out: &mut [u8], at: usize, text: &[u8]) -> usize
    requires { IsTextPlace at × (length text.now ≤ 65536) }
    ensures { Wrote out.old at text.now result out.new }
{
    for (i, b) in text.iter().enumerate() {
        put(out, at + i, *b);
    }
    at + text.len()
}

// The last k digits of n, no zeros in front.
fn put_digits(out: &mut [u8], at: usize, k: usize, n: u64) -> usize
    requires { IsTextPlace at × (k ≤ 20) }
    ensures { Wrote out.old at (digits k n) result out.new × (result ≤ at + k) }
{
    if k == 0 {
        return at;
    }
    if n < 10 {
        put(out, at, b'0' + (n % 10) as u8);
        return at + 1;
    }
    let next = put_digits(out, at, k - 1, n / 10);
    put(out, next, b'0' + (n % 10) as u8);
    next + 1
}

pub fn put_decimal(out: &mut [u8], at: usize, n: u64) -> usize
    requires { IsTextPlace at }
    ensures { Wrote out.old at (decimal n) result out.new × (result ≤ at + 20) }
{
    put_digits(out, at, 20, n)
}
