// A script run piece by piece, however its bytes come.
//
// A turn reads on behind the bytes that are held, runs the lines that are whole then, writes out what they print, and holds the rest.
// At the script's end the rest is its last line. Where the reading fails the rest is part of a line, and is not run.
ghost use Rattle.std.specs.Prelude.{◌≡◌};
ghost use Rattle.table.specs.Layout.{mem};
ghost use Rattle.reader.specs.Desk.{state_of};
ghost use Rattle.reader.specs.Pieces.{Behind, at_best_unread, Unless, Brought, RanPiece, RanEnd, Turned, RanScript, RanFromBlank};

use crate::failure::say;
use crate::input::Held;
use crate::lines::{Desk, run_last, run_lines};
use crate::output::Output;
use std::io::{Read, Result};

// How a script stands, from the best to the worst: it was run to its end and all that it prints is written; there may be more of it;
// the reading failed; the writing failed.
#[derive(Clone, Copy, PartialEq, Eq, PartialOrd, Ord)]
pub enum Standing {
    Whole,
    More,
    Unread,
    Unwritten,
}

impl Standing {
    // After a script that could not be read, however this one stands.
    pub fn at_best_unread(self) -> Standing
        ensures { result ≡ at_best_unread self }
    {
        self.max(Standing::Unread)
    }
}

// Runs the script that the input brings, to its end.
pub fn run<R: Read>(rt: &HostRuntime, input: &mut R, name: &[u8]) -> Standing
    ensures { RanFromBlank result }
{
    let mut desk = Desk {
        rules: [0; desk::RULES],
        cells: [0; desk::CELLS],
        words: [0; desk::WORDS],
        links: [0; desk::LINKS],
        pool: 0,
    };
    run_script(rt, input, name, &mut desk)
}

// The same at a desk that is lent.
fn run_script<R: Read>(rt: &HostRuntime, input: &mut R, name: &[u8], desk: &mut Desk) -> Standing
    ensures { RanScript result (state_of desk.old)
        (mem desk.new.rules desk.new.cells desk.new.words) desk.new.links }
{
    let mut held = Held::new();
    let mut out = Output::new();
    // a proved loop has to end, and nothing says that a script does: no run uses up so many turns
    for _ in 0..u64::MAX {
        let got = held.fill(input);
        let standing = run_turn(rt, got, name, &mut held, desk, &mut out);
        if standing != Standing::More {
            return standing;
        }
    }
    Standing::More
}

// Runs what is whole, now that this was read behind the bytes that are held. A reading that failed is said on standard error.
fn run_turn(
    rt: &HostRuntime,
    got: Result<usize>,
    name: &[u8],
    held: &mut Held,
    desk: &mut Desk,
    out: &mut Output,
) -> Standing
    requires { Brought held.old.bytes held.old.len got }
    ensures { Turned got held.old.bytes held.old.len (state_of desk.old) (state_of desk.new)
        held.new.bytes held.new.len result }
{
    match got {
        Ok(0) => run_end(rt, held, desk, out),
        Ok(n) => run_piece(rt, held, n, desk, out),
        Err(error) => {
            say(rt, name, error);
            Standing::Unread
        }
    }
}

// Runs the lines that are whole, now that n bytes stand behind those that were held.
fn run_piece(
    rt: &HostRuntime,
    held: &mut Held,
    n: usize,
    desk: &mut Desk,
    out: &mut Output,
) -> Standing
    requires { Behind held.old.bytes held.old.len n }
    ensures { RanPiece held.old.bytes held.old.len n (state_of desk.old) (state_of desk.new)
        held.new.bytes held.new.len result }
{
    let end = held.len + n;
    let at = run_lines(rt, &held.bytes[..end], desk, out);
    held.keep_rest(at, end);
    standing_once_written(rt, out, Standing::More)
}

// Runs what is held as the last line, now that the script is at its end.
fn run_end(rt: &HostRuntime, held: &mut Held, desk: &mut Desk, out: &mut Output) -> Standing
    ensures { RanEnd held.old.bytes held.old.len (state_of desk.old) (state_of desk.new) held.new.len result }
{
    run_last(rt, &held.bytes[..held.len], desk, out);
    held.len = 0;
    standing_once_written(rt, out, Standing::Whole)
}

// Writes out what waits. The script then stands so, if all that it printed was written.
fn standing_once_written(rt: &HostRuntime, out: &mut Output, standing: Standing) -> Standing
    ensures { Unless standing result }
{
    out.flush(rt);
    if out.is_written {
        standing
    } else {
        Standing::Unwritten
    }
}
