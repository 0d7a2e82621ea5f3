// A text's lines, each with its newline, run at the desk; the last line may lack it.
//
// The text that was read and not yet run stands at the beginning of a buffer. Its lines are run where they stand, and the rest, the
// beginning of a line, is moved to the front (`Held::keep_rest`). Of a rest longer than any good line only so much is kept that it
// stays too long: the line is malformed whatever follows, so a line of any length goes through.
ghost use Rattle.std.specs.Prelude.{◌≤◌, length};
ghost use Rattle.reader.specs.Desk.{state_of};
ghost use Rattle.reader.specs.Lines.{RanLine, RanLines, RanLast};

use crate::output::Output;
use text::newline;

// The longest line that can be good: a letter, 256 numbers of four digits, each after a space, and a newline.
pub const LONGEST: usize = 1282;

// What is kept from line to line: the table's numbers, the link buffer, and the size of the link pool.
#[derive(Drop)]
pub struct Desk {
    pub rules: [u8; desk::RULES],
    pub cells: [u8; desk::CELLS],
    pub words: [u64; desk::WORDS],
    pub links: [u16; desk::LINKS],
    pub pool: usize,
}

// Runs each line of the text that has its newline, and answers the place after the last.
pub fn run_lines(rt: &HostRuntime, text: &[u8], desk: &mut Desk, out: &mut Output) -> usize
    ensures { RanLines text.now (length text.now) (state_of desk.old) (state_of desk.new) result
        out.old.bytes out.old.used out.new.bytes out.new.used }
{
    let n = text.len();
    let mut at = 0;
    // `text::newline` says where each line ends, so `at` goes on by uneven steps: no `for` is plainer
    let mut end = newline(text, at, n);
    while end < n {
        run_line(rt, &text[at..end + 1], desk, out);
        at = end + 1;
        end = newline(text, at, n);
    }
    at
}

// Runs the text as the last line, if the script does not end with a newline.
pub fn run_last(rt: &HostRuntime, text: &[u8], desk: &mut Desk, out: &mut Output)
    ensures { RanLast text.now (length text.now) (state_of desk.old) (state_of desk.new)
        out.old.bytes out.old.used out.new.bytes out.new.used }
{
    if !text.is_empty() {
        run_line(rt, text, desk, out);
    }
}

// Runs a line.
fn run_line(rt: &HostRuntime, line: &[u8], desk: &mut Desk, out: &mut Output)
    ensures { RanLine line.now (state_of desk.old) (state_of desk.new)
        out.old.bytes out.old.used out.new.bytes out.new.used }
{
    let start = out.ready(rt);
    let done = desk::answer(
        line,
        &mut desk.rules,
        &mut desk.cells,
        &mut desk.words,
        &mut desk.links,
        &mut out.bytes,
        desk.pool,
        start,
    );
    desk.pool = done.pool;
    out.used = done.end;
}
