// The word that `reader --status FILE SCRIPT..` leaves in the file, for `./skydoublet` to make its exit status from.
use crate::arguments::{WORD, arg_count, name_too_long, overwrite};
use crate::failure::say;
use std::env::Env;
use std::io::{Error, Write};

// Whether the arguments, so many of them, begin with `--status FILE`.
pub(crate) fn has_status(rt: &HostRuntime, n: usize) -> bool {
    let mut word = [0u8; WORD];
    match rt.arg(1, &mut word) {
        Ok(k) => n >= 3 && &word[..k] == b"--status".as_slice(),
        Err(_) => false,
    }
}

// Says that all went well.
pub(crate) fn say_done(rt: &HostRuntime) {
    tell(rt, b"done\n");
}

// Says that nobody reads what is printed: by the word `unread` in the file after `--status`, so that `./skydoublet` can keep silent of
// it where its caller wants that, else on standard error.
pub(crate) fn say_unread(rt: &HostRuntime, error: Error) {
    if has_status(rt, arg_count(rt)) {
        tell(rt, b"unread\n");
    } else {
        say(rt, b"standard output", error);
    }
}

// Writes the word into the file that argument 2 names. What fails here leaves the file without it.
fn tell(rt: &HostRuntime, word: &[u8]) {
    let mut path = [0u8; WORD];
    match rt.arg(2, &mut path) {
        Ok(n) => write_word(rt, &path[..n], word),
        Err(_) => say(rt, b"--status", name_too_long()),
    }
}

fn write_word(rt: &HostRuntime, path: &[u8], word: &[u8]) {
    match overwrite(rt, path) {
        Ok(mut file) => {
            let _ = file.write_all(word);
        }
        Err(error) => say(rt, path, error),
    }
}
