// The reader: `reader SCRIPT..`, or a script on standard input, which the name `-` stands for too.
//
// Each script named is one of its own, with a desk of its own. Bytes are read in pieces (pieces.rt) and cut into lines where they
// stand (lines.rt), so a script of any length runs in the same memory. What is printed waits in a buffer and is written out before
// more is read, so that who types at a keyboard is answered, and when the next line's text might not fit.
//
// Nothing can be promised of what a file holds or of what becomes of a write. A file that can't be opened or read is named on
// standard error, and the other scripts are still run; so is a failed write, after which nothing more is run.
//
// Its exit status says nothing of that. `reader --status FILE SCRIPT..` writes `done` into the file when all scripts were run and all
// that they print was written, and `unread` when nobody reads what is printed; `./skydoublet` makes its exit status from that.
//
// Its drills are the stored scripts in data/drills/, which the check runs in the order of `args`; `stdout` has what they must print.
#![tactic(auto)]

mod again; // again.rt: whether what failed is worth another try
mod arguments; // arguments.rt: the arguments, and the files that they name
mod failure; // failure.rt: what failed, said
mod input; // input.rt: bytes read, behind those that are held
mod lines; // lines.rt: a text's lines run at the desk
mod output; // output.rt: what waits to be written out
mod pieces; // pieces.rt: a script run piece by piece
mod status; // status.rt: the word that says how all went

use arguments::{WORD, arg_count, name_too_long, open};
use failure::say;
use pieces::Standing;
use status::{has_status, say_done};
use std::env::Env;

// Runs the scripts that the arguments name; after `--status`, says in the file named there if all went well.
fn main(rt: HostRuntime) {
    let n = arg_count(&rt);
    if !has_status(&rt, n) {
        run_all(&rt, 1, n);
        return;
    }
    if run_all(&rt, 3, n) == Standing::Whole {
        say_done(&rt);
    }
}

// Runs the scripts that the arguments from `first` on name, in order, or the one on standard input if there are none. The scripts
// stand as the worst of them; once a write failed no more are run.
fn run_all(rt: &HostRuntime, first: usize, n: usize) -> Standing {
    if first >= n {
        return run_standard(rt);
    }
    let mut standing = Standing::Whole;
    for i in first..n {
        let next = run_named(rt, i);
        standing = match standing {
            Standing::Whole => next,
            _ => next.at_best_unread(),
        };
        if standing == Standing::Unwritten {
            return standing;
        }
    }
    standing
}

// Runs the script in the file that argument i names.
fn run_named(rt: &HostRuntime, i: usize) -> Standing {
    let mut path = [0u8; WORD];
    match rt.arg(i, &mut path) {
        Ok(n) => run_path(rt, &path[..n]),
        Err(_) => {
            say(rt, b"the name of a script", name_too_long());
            Standing::Unread
        }
    }
}

fn run_path(rt: &HostRuntime, path: &[u8]) -> Standing {
    if path == b"-".as_slice() {
        return run_standard(rt);
    }
    match open(rt, path) {
        Ok(mut file) => pieces::run(rt, &mut file, path),
        Err(error) => {
            say(rt, path, error);
            Standing::Unread
        }
    }
}

fn run_standard(rt: &HostRuntime) -> Standing {
    let mut input = rt.stdin();
    pieces::run(rt, &mut input, b"standard input")
}
