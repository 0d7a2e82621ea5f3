// Parse: whether a line of tokens is one of the grammar's, by the graph of links (001's PAR-PARSE with its stacks shared).
//
// `parse` takes a table in its three lent slices, a lent link buffer with the size of its pool, and a line. It answers accept,
// reject or a refusal, and the number of links in the graph at the end. The table need not be expanded: a set is expanded when
// the line first comes to it and stays so for the lines to come. So the first lines on a fresh table are slow, and later ones
// only read.
//
// A line costs the form test, which looks at every number of the table once; then the links that it makes, most often one a
// token and one a reduction; and at the end the clearing of the pool's part of the buffer. A looping or ambiguous grammar costs
// more links and never a second link between the same two nodes, so every parse ends and the pool bounds its memory. The stack
// holds 25,094 bytes of work numbers, which `levels` and `links` ask for, whatever the pool.
//
// What is unusual: nothing is undone on a refusal. NO-SETS and NO-LINKS leave the expansions made, and a collection, so the
// same line may succeed when it comes again with more room. Every number that lies beyond the pools, of the table or of the
// buffer, is left as it was; the pool's part of the buffer is all zero after every parse that got past its checks.
//
// A parse is its checks, the reading and the clearing: refusals.rt has the checks, `read` has the crate `positions` go through the
// line and leaves the graph of links in the buffer, `clear` makes that part of it zero. What `parse` promises stands in
// specs/Parse.antt, and what that says of lines and grammars in the crate `demands`.
#![tactic(auto)]

ghost use Rattle.std.specs.Prelude.{◌≤◌, length};
ghost use Rattle.table.specs.Layout.{mem};
ghost use Rattle.links.specs.Records.{numbers_for};
ghost use Rattle.links.specs.Held.{Cleared};
ghost use Rattle.positions.specs.Reading.{Readable};
ghost use Rattle.recogniser.specs.Parse.{Parses};
ghost use Rattle.recogniser.specs.Reading.{ReadsOver};

use symbols::{Refusal, Verdict};

mod refusals; // refusals.rt: what is refused before anything is touched

// Parses the line over a pool of so many links.
pub fn parse(
    rules: &mut [u8],
    cells: &mut [u8],
    words: &mut [u64],
    links: &mut [u16],
    pool: usize,
    line: &[u8],
) -> Result<Verdict, Refusal>
    ensures { Parses pool line.now (mem rules.old cells.old words.old)
        (mem rules.new cells.new words.new) links.old links.new result }
{
    refusals::check(rules, cells, words, links.len(), pool, line)?;
    let verdict = read(rules, cells, words, links, pool, line);
    clear(links, pool);
    verdict
}

// Reads a line that passed the checks, over the pool's part of the link buffer, and leaves the graph of links there. Here stand the
// work numbers: 512 bytes for the map of `links`, 24,582 for the lists of `levels`.
pub fn read(
    rules: &mut [u8],
    cells: &mut [u8],
    words: &mut [u64],
    links: &mut [u16],
    pool: usize,
    line: &[u8],
) -> Result<Verdict, Refusal>
    requires { Readable pool line.now (mem rules.old cells.old words.old) (length links.old) }
    ensures { ReadsOver pool line.now (mem rules.old cells.old words.old)
        (mem rules.new cells.new words.new) links.old links.new result }
{
    let n = (pool + 1) * links::RECORD;
    let mut at: [u16; 256] = [0; 256];
    let mut work: [u16; levels::WORK] = [0; levels::WORK];
    positions::read(
        rules,
        cells,
        words,
        &mut links[..n],
        &mut at,
        &mut work,
        line,
        pool,
    )
}

// Leaves the pool's part of the link buffer zero.
pub fn clear(links: &mut [u16], pool: usize)
    requires { numbers_for pool ≤ length links.old }
    ensures { Cleared (numbers_for pool) links.old links.new }
{
    links::clear(links, (pool + 1) * links::RECORD);
}
