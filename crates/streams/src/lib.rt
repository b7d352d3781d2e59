//! Reads that tell a failure from an end. A call that a signal interrupts is made again.
#![tactic(auto)]

ghost use Rattle.std.specs.Prelude.{◌≡◌, ◌≢◌, ◌+◌, ◌<◌, ◌≤◌, length, take, drop, slice_range, IfOk, IfErr, OnErr};
ghost use Rattle.std.specs.IoError.{error_kind};
ghost use Rattle.std.specs.Io.{ReadsAtMost};
ghost use Rattle.std.specs.Io.KnownBytes.{Consumes, IsAtEnd, Keeps};
ghost use Rattle.streams.specs.Failing.{ConsumesFront};

use std::io::{Error, ErrorKind, Read, Result};

// One read: how many bytes it put at the front of `room`, none only where the input ends or there is no room.
pub fn read_some<R: Read>(reader: &mut R, room: &mut [u8]) -> Result<usize>
    ensures bound { ReadsAtMost result room.new }
    ensures ok { IfOk result (λ n. Consumes (R.remaining reader.old) (R.remaining reader.new) (take n room.new)) }
    ensures end { IfOk result (λ n. n ≡ 0 → 0 < length room.old → IsAtEnd (R.remaining reader.new)) }
    ensures err { OnErr result (Keeps (R.remaining reader.old) (R.remaining reader.new)) }
    ensures retried { IfErr result (λ e. error_kind e ≢ ErrorKind.Interrupted) }
{
    for _ in 0..u64::MAX {
        match reader.read(room) {
            Ok(n) => return Ok(n),
            Err(e) => {
                if e.kind() != ErrorKind::Interrupted {
                    return Err(e);
                }
            }
        }
    }
    Err(Error::from(ErrorKind::TimedOut))
}

// One read behind the first `kept` bytes, which stay.
// Kept as it is: its clauses say of the whole room what stays and what is read, as trace_blocks' refill promises it; a part passed by the caller was tried, and its goals stayed open.
pub fn read_behind<R: Read>(reader: &mut R, room: &mut [u8], kept: usize) -> Result<usize>
    requires { kept ≤ length room.old }
    ensures front { take kept room.new ≡ take kept room.old }
    ensures fits { IfOk result (λ n. kept + n ≤ length room.new) }
    ensures ok { IfOk result (λ n. Consumes (R.remaining reader.old) (R.remaining reader.new) (take n (drop kept room.new))) }
    ensures end { IfOk result (λ n. n ≡ 0 → kept < length room.old → IsAtEnd (R.remaining reader.new)) }
    ensures err { OnErr result (Keeps (R.remaining reader.old) (R.remaining reader.new)) }
    ensures retried { IfErr result (λ e. error_kind e ≢ ErrorKind.Interrupted) }
{
    read_some(reader, &mut room[kept..])
}

// Reads until `room` is full or the input ends, and answers how many bytes it put at the front.
pub fn read_full<R: Read>(reader: &mut R, room: &mut [u8]) -> Result<usize>
    ensures bound { ReadsAtMost result room.new }
    ensures ok { IfOk result (λ n. Consumes (R.remaining reader.old) (R.remaining reader.new) (take n room.new)) }
    ensures end { IfOk result (λ n. n < length room.old → IsAtEnd (R.remaining reader.new)) }
    ensures failed { OnErr result (ConsumesFront (R.remaining reader.old) (R.remaining reader.new) room.new) }
    ensures retried { IfErr result (λ e. error_kind e ≢ ErrorKind.Interrupted) }
{
    let mut done = 0;
    // Kept as it is: it steps by what a read brings, which no range yields.
    while done < room.len() {
        let n = read_behind(reader, room, done)?;
        if n == 0 {
            return Ok(done);
        }
        done += n;
    }
    Ok(done)
}

// Reads into the bytes from `from` up to `to` until they are full or the input ends, and answers how many bytes it put there.
// Kept as it is: as for read_behind, its clauses say of the whole room what stays and what is read, as read_sheet of trace_blocks promises it.
pub fn read_between<R: Read>(
    reader: &mut R,
    room: &mut [u8],
    from: usize,
    to: usize,
) -> Result<usize>
    requires { (from ≤ to) × (to ≤ length room.old) }
    ensures front { take from room.new ≡ take from room.old }
    ensures fits { IfOk result (λ n. from + n ≤ to) }
    ensures ok { IfOk result (λ n. Consumes (R.remaining reader.old) (R.remaining reader.new) (take n (drop from room.new))) }
    ensures end { IfOk result (λ n. from + n < to → IsAtEnd (R.remaining reader.new)) }
    ensures failed { OnErr result (ConsumesFront (R.remaining reader.old) (R.remaining reader.new) (slice_range room.new from to)) }
    ensures retried { IfErr result (λ e. error_kind e ≢ ErrorKind.Interrupted) }
{
    read_full(reader, &mut room[from..to])
}

#[cfg(test)]
mod tests {
    use super::*;
    use std::test::Fail;

    // Gives a byte, is interrupted, and so on, until its bytes are over; then its input ends, or fails.
    #[derive(Drop)]
    struct Halting {
        left: u8,
        interrupted: bool,
        fails: bool,
    }

    impl Read for Halting {
        fn read(&mut self, room: &mut [u8]) -> Result<usize> {
            if !self.interrupted {
                self.interrupted = true;
                return Err(Error::from(ErrorKind::Interrupted));
            }
            self.interrupted = false;
            if self.left == 0 {
                if self.fails {
                    return Err(Error::from(ErrorKind::BrokenPipe));
                }
                return Ok(0);
            }
            if room.len() == 0 {
                return Ok(0);
            }
            room[0] = self.left;
            self.left -= 1;
            Ok(1)
        }
    }

    #[test]
    fn tries_an_interrupted_read_again(rt: HostRuntime) -> std::result::Result<(), Fail> {
        let mut reader = Halting {
            left: 3,
            interrupted: false,
            fails: false,
        };
        let mut room = [0u8; 8];
        assert_eq!(rt; read_between(&mut reader, &mut room, 1, 6)?, 3);
        assert_eq!(rt; room, [0u8, 3, 2, 1, 0, 0, 0, 0]);
        Ok(())
    }

    #[test]
    fn tells_a_failure_from_an_end(rt: HostRuntime) -> std::result::Result<(), Fail> {
        let mut reader = Halting {
            left: 3,
            interrupted: false,
            fails: true,
        };
        let mut room = [0u8; 8];
        assert_eq!(rt; read_some(&mut reader, &mut room)?, 1);
        match read_full(&mut reader, &mut room) {
            Ok(_) => assert!(rt; false, "the failure is lost"),
            Err(e) => assert!(rt; e.kind() == ErrorKind::BrokenPipe),
        }
        Ok(())
    }
}
