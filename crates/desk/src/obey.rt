// A line to its command, its call and its text.
ghost use Rattle.std.specs.Prelude.{◌+◌, ◌≤◌, length};
ghost use Rattle.table.specs.Layout.{mem, view};
ghost use Rattle.script.specs.Command.{symbols_of, told};
ghost use Rattle.replies.specs.Reply.{text_of, Printable};
ghost use Rattle.desk.specs.Obeys.{state, Obeys, Prints};

use super::calls;
use replies::Reply;
use script::Command;
use symbols::Refusal;
use text::Text;

// Makes the call of the command that was read. Its symbols stand in the buffer as `script::read` puts them.
fn obey(
    read: Option<Command>,
    symbols: &[u8],
    rules: &mut [u8],
    cells: &mut [u8],
    words: &mut [u64],
    links: &mut [u16],
    pool: &mut usize,
) -> Reply
    requires { symbols_of read ≤ length symbols.now }
    ensures { Printable (mem rules.new cells.new words.new) result
        × Obeys (state (mem rules.old cells.old words.old) links.old pool.old)
        (state (mem rules.new cells.new words.new) links.new pool.new)
        (text_of (view (mem rules.new cells.new words.new)) result) (told symbols.now read) }
{
    let Some(command) = read else {
        return Reply::Alone(Err(Refusal::Malformed));
    };
    match command {
        Command::New(sets, places, size) => Reply::Alone(calls::new(
            rules, cells, words, pool, sets, places, size,
        )),
        Command::Add(n) => calls::add(rules, cells, words, symbols, n),
        Command::Delete(n) => calls::delete(rules, cells, words, symbols, n),
        Command::Parse(n) => calls::parse(rules, cells, words, links, *pool, symbols, n),
        Command::Collect => calls::collect(rules, cells, words),
        Command::Restart => calls::restart(rules, cells, words),
        Command::List => calls::list(rules, cells, words),
    }
}

// What a line leaves beside the numbers: the size of the link pool, and the place after its text.
#[derive(Clone, Copy)]
pub struct Answered {
    pub pool: usize,
    pub end: usize,
}

// Reads a line, with its newline if it has one, makes its call, and puts its text from `at` on.
pub fn answer(
    line: &[u8],
    rules: &mut [u8],
    cells: &mut [u8],
    words: &mut [u64],
    links: &mut [u16],
    out: &mut [u8],
    pool: usize,
    at: usize,
) -> Answered
    requires { (length cells.old ≤ 16384) × (at + 1056768 ≤ length out.old) }
    ensures { Prints line.now (state (mem rules.old cells.old words.old) links.old pool)
        (state (mem rules.new cells.new words.new) links.new result.pool)
        out.old at out.new result.end }
{
    let mut symbols = [0u8; 256];
    let read = script::read(line, &mut symbols);
    let mut pool = pool;
    let reply = obey(read, &symbols, rules, cells, words, links, &mut pool);
    let mut text = Text {
        bytes: out,
        end: at,
    };
    replies::put(reply, rules, cells, words, &mut text);
    Answered {
        pool,
        end: text.end,
    }
}
