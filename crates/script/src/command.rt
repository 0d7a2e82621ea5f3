// A line read to the command that it asks for.
ghost use Rattle.std.specs.Prelude.{◌≡◌, ◌++◌, ℕ, ◌≤◌, ◌<◌, Some, eqb, length, get_or, drop};
ghost use Rattle.std.specs.Bool.{then_some};
ghost use Rattle.script.specs.Command.{bytes, symbols_of, Tells, Reads};

use super::cursor::Cursor;
use super::numbers::numbers;

// What a line asks for. New has the sizes of its three pools; Add and Delete have how many symbols stand on the right, beside
// the left one; Parse has how many tokens the line has. The symbols themselves stand in the buffer that `read` is lent.
#[derive(Clone, Copy)]
pub enum Command {
    New(usize, usize, usize),
    Add(usize),
    Delete(usize),
    Parse(usize),
    Collect,
    Restart,
    List,
}

impl Command {
    // How many symbols the buffer has for it, a left one counted.
    pub fn symbols(self) -> usize
        requires { symbols_of (Some self) ≤ 256 }
        ensures { result ≡ symbols_of (Some self) }
    {
        match self {
            Command::Add(n) | Command::Delete(n) => n + 1,
            Command::Parse(n) => n,
            Command::New(_, _, _) | Command::Collect | Command::Restart | Command::List => 0,
        }
    }
}

// Reads a line, with its newline if it has one: any bytes, and any number of them. None: it is malformed. The symbols go into
// the lent buffer, the left one first.
pub fn read(line: &[u8], symbols: &mut [u8]) -> Option<Command>
    requires { 256 ≤ length symbols.old }
    ensures { Reads line.now symbols.old symbols.new result }
{
    let (letter, after) = Cursor::START.letter(line)?;
    let mut ns = [0u16; 256];
    let (n, end) = numbers(after, line, &mut ns)?;
    if end.at < line.len() {
        return None; // more than a line
    }
    let command = meaning(letter, &ns[..n])?;
    copy(&ns[..command.symbols()], symbols);
    Some(command)
}

// What a letter and its numbers mean, if anything.
fn meaning(letter: u8, ns: &[u16]) -> Option<Command>
    ensures { Tells letter ns.now result }
{
    let n = ns.len();
    match letter {
        b'N' => new(ns),
        b'A' => of_symbols(ns, Command::Add(n.checked_sub(1)?)),
        b'D' => of_symbols(ns, Command::Delete(n.checked_sub(1)?)),
        b'P' => of_symbols(ns, Command::Parse(n)),
        b'G' => alone(ns, Command::Collect),
        b'R' => alone(ns, Command::Restart),
        b'L' => alone(ns, Command::List),
        _ => None,
    }
}

// N alone, or with three sizes.
fn new(ns: &[u16]) -> Option<Command>
    ensures { Tells 78 ns.now result }
{
    match ns {
        [] => Some(Command::New(128, 128, 1024)),
        [sets, rules, links] => Some(Command::New(
            *sets as usize,
            *rules as usize,
            *links as usize,
        )),
        _ => None,
    }
}

// The command, where each number is a byte.
fn of_symbols(ns: &[u16], command: Command) -> Option<Command>
    ensures { result ≡ then_some (bytes ns.now) command }
{
    all_bytes(ns).then_some(command)
}

fn all_bytes(ns: &[u16]) -> bool
    ensures { result ≡ bytes ns.now }
{
    ns.iter().all(|&n| n <= 255)
}

// The command, where there is no number.
fn alone(ns: &[u16], command: Command) -> Option<Command>
    ensures { result ≡ then_some (eqb (length ns.now) 0) command }
{
    ns.is_empty().then_some(command)
}

// Copies numbers, which are bytes, into the buffer.
fn copy(ns: &[u16], symbols: &mut [u8])
    requires n_in_bounds { length ns.now ≤ length symbols.old }
    requires by_index { (k : ℕ) → k < length ns.now → get_or ns.now k 0 ≤ 255 }
    ensures { symbols.new ≡ ns.now ++ drop (length ns.now) symbols.old }
{
    for (i, &n) in ns.iter().enumerate() {
        symbols[i] = n as u8;
    }
}
