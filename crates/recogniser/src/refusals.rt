// What Parse refuses before anything is touched: 11, 10, 18, 19, in this order.
ghost use Rattle.std.specs.Prelude.{◌≡◌};
ghost use Rattle.laws.specs.Choice.{Tells};
ghost use Rattle.theory.specs.Calls.{all_tokens};
ghost use Rattle.table.specs.Layout.{mem};
ghost use Rattle.recogniser.specs.Check.{PoolFits, Checks};

use symbols::{Refusal, Symbol};

// The largest pool of links, and the longest line.
const MOST_LINKS: usize = 4096;

const MOST_TOKENS: usize = 255;

// Parse's checks, in 01's order; the link buffer has `room` numbers.
pub fn check(
    rules: &[u8],
    cells: &[u8],
    words: &[u64],
    room: usize,
    pool: usize,
    line: &[u8],
) -> Result<(), Refusal>
    ensures { Checks (mem rules.now cells.now words.now) room pool line.now result }
{
    // both are asked first, so that only the order of the answers is left to get wrong (must-fail/pool_checked_before_table)
    let formed = form::is_formed(rules, cells, words);
    let fits = pool_fits(room, pool);
    if !formed {
        return Err(Refusal::BadTable);
    }
    if !fits {
        return Err(Refusal::BadPool);
    }
    if line.len() > MOST_TOKENS {
        return Err(Refusal::LongLine);
    }
    if !are_tokens(line) {
        return Err(Refusal::BadToken);
    }
    Ok(())
}

// Whether the link size is in its range and the link buffer long enough for it.
fn pool_fits(room: usize, pool: usize) -> bool
    ensures { Tells result (PoolFits room pool) }
{
    pool <= MOST_LINKS && (pool + 1) * links::RECORD <= room
}

// Whether each number of the line is a terminal.
fn are_tokens(line: &[u8]) -> bool
    ensures { result ≡ all_tokens line.now }
{
    line.iter().all(|&x| Symbol(x).is_terminal())
}
