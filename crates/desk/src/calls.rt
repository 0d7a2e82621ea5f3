// Each command's call, and the reply that it leaves.
ghost use Rattle.std.specs.Prelude.{◌≡◌, List, ℕ, ◌+◌, ◌≤◌, length, get_or, take, drop};
ghost use Rattle.symbols.specs.Answer.{number_of, answer_of};
ghost use Rattle.theory.specs.Calls.{add, delete, collect, restart};
ghost use Rattle.table.specs.Layout.{mem, view};
ghost use Rattle.replies.specs.Printed.{answer_line};
ghost use Rattle.desk.specs.Use.{CountsUse};
ghost use Rattle.replies.specs.Reply.{text_of, Printable};
ghost use Rattle.desk.specs.Obeys.{here, state, Makes, Changes, Parsed, Collects, Lists};

use replies::Reply;
use symbols::Refusal;

// "Here at most 128, 128 and 1,024": what the desk's pools hold.
pub const MOST_SETS: usize = 128;

pub const MOST_RULES: usize = 128;

pub const MOST_LINKS: usize = 1024;

// N: "A refused N keeps the old table", and the old size of the link pool with it.
pub fn new(
    rules: &mut [u8],
    cells: &mut [u8],
    words: &mut [u64],
    pool: &mut usize,
    sets: usize,
    places: usize,
    size: usize,
) -> Result<(), Refusal>
    ensures { (b : List ℕ) → Makes sets places size (state (mem rules.old cells.old words.old) b pool.old)
        (state (mem rules.new cells.new words.new) b pool.new) (answer_line (number_of (answer_of result))) }
{
    if !is_here(sets, places, size) {
        return Err(Refusal::BadPool);
    }
    generator::new(rules, cells, words, sets, places)?;
    *pool = size;
    Ok(())
}

// Whether the desk's pools hold so many sets, rules and links.
fn is_here(sets: usize, places: usize, size: usize) -> bool
    ensures { result ≡ here sets places size }
{
    sets <= MOST_SETS && places <= MOST_RULES && size <= MOST_LINKS
}

// A: the left symbol comes first, then n right ones.
pub fn add(rules: &mut [u8], cells: &mut [u8], words: &mut [u64], symbols: &[u8], n: usize) -> Reply
    requires { n + 1 ≤ length symbols.now }
    ensures { Printable (mem rules.new cells.new words.new) result
        × Changes (λ t. add t (get_or symbols.now 0 0) (take n (drop 1 symbols.now)))
        (mem rules.old cells.old words.old) (mem rules.new cells.new words.new)
        (text_of (view (mem rules.new cells.new words.new)) result) }
{
    let end = n + 1;
    Reply::Change(generator::add(rules, cells, words, symbols[0], &symbols[1..end]))
}

// D: as A.
pub fn delete(
    rules: &mut [u8],
    cells: &mut [u8],
    words: &mut [u64],
    symbols: &[u8],
    n: usize,
) -> Reply
    requires { n + 1 ≤ length symbols.now }
    ensures { Printable (mem rules.new cells.new words.new) result
        × Changes (λ t. delete t (get_or symbols.now 0 0) (take n (drop 1 symbols.now)))
        (mem rules.old cells.old words.old) (mem rules.new cells.new words.new)
        (text_of (view (mem rules.new cells.new words.new)) result) }
{
    let end = n + 1;
    Reply::Change(generator::delete(rules, cells, words, symbols[0], &symbols[1..end]))
}

// P: the line of the first n symbols, over the link pool.
pub fn parse(
    rules: &mut [u8],
    cells: &mut [u8],
    words: &mut [u64],
    links: &mut [u16],
    pool: usize,
    symbols: &[u8],
    n: usize,
) -> Reply
    requires { n ≤ length symbols.now }
    ensures { Printable (mem rules.new cells.new words.new) result
        × Parsed pool (take n symbols.now)
        (mem rules.old cells.old words.old) (mem rules.new cells.new words.new)
        links.old links.new (text_of (view (mem rules.new cells.new words.new)) result) }
{
    let read = recogniser::parse(rules, cells, words, links, pool, &symbols[..n]);
    Reply::Parse(read, sets_in_use(rules, cells))
}

// G: collect.
pub fn collect(rules: &mut [u8], cells: &mut [u8], words: &mut [u64]) -> Reply
    ensures { Printable (mem rules.new cells.new words.new) result
        × Collects collect
        (mem rules.old cells.old words.old) (mem rules.new cells.new words.new)
        (text_of (view (mem rules.new cells.new words.new)) result) }
{
    let done = generator::collect(rules, cells, words);
    Reply::Collect(done, sets_in_use(rules, cells))
}

// R: restart.
pub fn restart(rules: &mut [u8], cells: &mut [u8], words: &mut [u64]) -> Reply
    ensures { Printable (mem rules.new cells.new words.new) result
        × Collects restart
        (mem rules.old cells.old words.old) (mem rules.new cells.new words.new)
        (text_of (view (mem rules.new cells.new words.new)) result) }
{
    let done = generator::restart(rules, cells, words);
    Reply::Collect(done, sets_in_use(rules, cells))
}

// L: "Collect, Restart and the listing check 11 alone."
pub fn list(rules: &[u8], cells: &[u8], words: &[u64]) -> Reply
    ensures { Printable (mem rules.now cells.now words.now) result
        × Lists (mem rules.now cells.now words.now)
        (text_of (view (mem rules.now cells.now words.now)) result) }
{
    if form::is_formed(rules, cells, words) {
        return Reply::Listing;
    }
    Reply::Alone(Err(Refusal::BadTable))
}

// How many sets of the table are in use; 0 where the slices are too short to hold one.
fn sets_in_use(rules: &[u8], cells: &[u8]) -> usize
    ensures { CountsUse rules.now cells.now result }
{
    if rules.len() < 2 {
        return 0;
    }
    let sets = table::sets_in(rules);
    if cells.len() < sets * table::ROW {
        return 0;
    }
    collection::room::in_use(cells, sets)
}
