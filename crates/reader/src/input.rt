// Bytes read from a script, behind those that are held.
ghost use Rattle.std.specs.Prelude.{◌≡◌, ◌+◌, ◌≤◌, ◌<◌, length};
ghost use Rattle.reader.specs.Lines.{KeptRest};
ghost use Rattle.reader.specs.Pieces.{Filled};

use crate::again::may_try_again;
use crate::lines::LONGEST;
use std::io::{Read, Result};

// How many bytes are held at most, those that are read at a time among them.
pub const TEXT: usize = 65536;

// The text that was read and is not run yet: the first `len` bytes, the beginning of a line.
#[derive(Drop)]
pub struct Held {
    pub bytes: [u8; TEXT],
    pub len: usize,
    ghost few: { len ≤ 1283 },
}

impl Held {
    pub fn new() -> Held
        ensures { result.len ≡ 0 }
    {
        Held {
            bytes: [0; TEXT],
            len: 0,
        }
    }

    // Reads on, behind the bytes that are held, which stay as they are. There is room for more, so that nothing read is the end.
    pub fn fill<R: Read>(&mut self, input: &mut R) -> Result<usize>
        ensures filled { Filled self.old.bytes self.old.len self.new.bytes result }
        ensures same_len { self.new.len ≡ self.old.len }
    {
        let held = self.len;
        // a proved loop has to end, and nothing says that a descriptor ever has bytes: no run uses up so many tries
        for _ in 1..u64::MAX {
            let tried = input.read(&mut self.bytes[held..]);
            match tried {
                Err(error) if may_try_again(error) => {}
                _ => return tried,
            }
        }
        input.read(&mut self.bytes[held..])
    }

    // Moves what stands from `at` up to `end` to the front, as much of it as a line's meaning needs, and holds that.
    pub fn keep_rest(&mut self, at: usize, end: usize)
        requires { (at ≤ end) × (end ≤ 65536) }
        ensures { KeptRest self.old.bytes at end self.new.bytes self.new.len }
    {
        let n = (end - at).min(LONGEST + 1);
        self.bytes.copy_within(at..at + n, 0);
        self.len = n;
    }
}
