// The program's arguments, and the files that they name.
use std::env::{Env, FillError};
use std::fs::File;
use std::io::{Error, Result};

// The longest argument that is taken: no path is longer.
pub const WORD: usize = 4096;

// Linux's numbers for a name that is too long, and for bytes that are no text.
const ENAMETOOLONG: i32 = 36;

const EILSEQ: i32 = 84;

// How many arguments there are, the program's name among them.
pub(crate) fn arg_count(rt: &HostRuntime) -> usize {
    let mut word = [0u8; WORD];
    for i in 0..usize::MAX {
        if let Err(FillError::NotPresent) = rt.arg(i, &mut word) {
            return i;
        }
    }
    usize::MAX
}

// What is wrong with an argument that is longer than any path.
pub(crate) fn name_too_long() -> Error {
    Error::from_raw_os_error(ENAMETOOLONG)
}

// Opens the file for reading.
pub(crate) fn open(rt: &HostRuntime, path: &[u8]) -> Result<File> {
    File::open(rt, text_of(path)?)
}

// Opens the file for writing, empty.
pub(crate) fn overwrite(rt: &HostRuntime, path: &[u8]) -> Result<File> {
    File::create(rt, text_of(path)?)
}

// The library takes a path that is text, and no other.
fn text_of(path: &[u8]) -> Result<&str> {
    str::from_utf8(path).map_err(|_| Error::from_raw_os_error(EILSEQ))
}
