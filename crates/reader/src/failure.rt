// What failed, said on standard error.
ghost use Rattle.std.specs.Prelude.{◌≤◌, length};

use std::io::{Error, Write};

// Writes a line: what failed, as the caller names it, a colon, and the system's words for it. A write that fails here is said nowhere.
pub(crate) fn say(rt: &HostRuntime, what: &[u8], error: Error) {
    let mut words = [0u8; 256];
    let n = words_of(error, &mut words);
    let mut out = rt.stderr();
    let _ = out.write_all(what);
    let _ = out.write_all(b": ");
    let _ = out.write_all(&words[..n]);
    let _ = out.write_all(b"\n");
}

// Puts the system's words for an error, and answers how many bytes they are.
fn words_of(error: Error, words: &mut [u8; 256]) -> usize
    ensures { result ≤ 256 }
{
    let mut rest: &mut [u8] = &mut words[..];
    let _ = write!(rest, "{error}");
    let n = 256usize.saturating_sub(rest.len());
    before_number(&words[..n])
}

// How much of the words stands before ` (os error 2)`, which an error's text ends with.
fn before_number(words: &[u8]) -> usize
    ensures { result ≤ length words.now }
{
    words
        .windows(2)
        .position(|pair| pair == b" (".as_slice())
        .unwrap_or(words.len())
}
