// What is printed waits in a buffer until it is written out.
//
// The buffer has room for the longest text of a line behind 65,536 bytes that wait, so a line's text always is in one piece. After a
// write that failed nothing more is written: what follows a gap would read as if it were whole.
ghost use Rattle.std.specs.Prelude.{true, false, ◌≡◌, ◌≤◌, length};
ghost use Rattle.reader.specs.Output.{Ready};

use crate::again::may_try_again;
use crate::failure::say;
use crate::status::say_unread;
use replies::ROOM;
use std::io::{Error, ErrorKind, Result, Write};

const OUTPUT: usize = ROOM + 65536;

// The first `used` bytes wait, unless a write failed: all that came before them is written.
#[derive(Drop)]
pub struct Output {
    pub bytes: [u8; OUTPUT],
    pub used: usize,
    pub is_written: bool,
    ghost size: { length bytes ≡ 1122304 },
    ghost inside: { used ≤ 1122304 },
}

impl Output {
    pub fn new() -> Output
        ensures { (result.used ≡ 0) × (result.is_written ≡ true) }
    {
        Output {
            bytes: zeros(),
            used: 0,
            is_written: true,
        }
    }

    // The place for the next line's text: behind what waits, if there is room, and else the front, once what waits is written out.
    pub fn ready(&mut self, rt: &HostRuntime) -> usize
        ensures place { Ready 1122304 self.old.used result }
        ensures same_bytes { self.new.bytes ≡ self.old.bytes }
    {
        if self.used <= OUTPUT - ROOM {
            return self.used;
        }
        self.flush(rt);
        0
    }

    // Writes out what waits, unless an earlier write failed. A failure is said on standard error.
    pub fn flush(&mut self, rt: &HostRuntime)
        ensures same_bytes { self.new.bytes ≡ self.old.bytes }
        ensures none_waits { self.new.used ≡ 0 }
        ensures failed { self.old.is_written ≡ false → self.new.is_written ≡ false }
    {
        if self.is_written {
            if let Err(error) = write_out(rt, &self.bytes[..self.used]) {
                self.is_written = false;
                say_unwritten(rt, error);
            }
        }
        self.used = 0;
    }
}

// A buffer of zeros, in a function of its own: a proof that sees its 1,122,304 numbers one by one doesn't end.
fn zeros() -> [u8; OUTPUT]
    ensures { length result ≡ 1122304 }
{
    [0; OUTPUT]
}

// Writes all of the text to standard output.
fn write_out(rt: &HostRuntime, text: &[u8]) -> Result<()> {
    let mut rest = text;
    // as in `fill`, more tries than any run uses up
    for _ in 0..u64::MAX {
        if rest.is_empty() {
            return Ok(());
        }
        match rt.stdout().write(rest) {
            Ok(n) => rest = &rest[n..],
            Err(error) if may_try_again(error) => {}
            Err(error) => return Err(error),
        }
    }
    Err(Error::from(ErrorKind::WriteZero))
}

fn say_unwritten(rt: &HostRuntime, error: Error) {
    match error.kind() {
        ErrorKind::BrokenPipe => say_unread(rt, error),
        _ => say(rt, b"standard output", error),
    }
}
