// The positions of a line, one after the other: Parse's steps on a table in form, past its checks.
//
// A position is settled: its links saturated and the sets of its nodes expanded, in turn, until neither brings anything new. Then
// its token is shifted, or at the end of the line the accept mark looked for.
//
// `buf` is the pool's part of the link buffer, `at` and `work` are the work numbers of `links` and `levels`. What each function
// promises is said by the steps of theory/specs/Steps.antt: from the place that was entered they reach the place that is left
// (theory/specs/Reaches.antt), or end. So `read` has, in the end, 01's steps from the first position to the verdict; and where that is
// accept, the graph of links is what the buffer holds (`holds-graph`).
#![tactic(auto)]

ghost use Rattle.std.specs.Prelude.{[], ◌≡◌, ◌≤◌, ◌<◌, length};
ghost use Rattle.table.specs.Layout.{mem, sets_in};
ghost use Rattle.table.specs.Laid.{Formed};
ghost use Rattle.links.specs.Records.{counts};
ghost use Rattle.links.specs.Held.{Held};
ghost use Rattle.links.specs.Lent.{graph_of, root, SameSlices, SamePlace};
ghost use Rattle.saturation.specs.Ends.{Standing};
ghost use Rattle.positions.specs.Reading.{Stands, AdvancesOr, MovesOn, Finishes, Judges, Readable, Reads};

use links::{Counts, Here, Links};
use settle::settle;
use symbols::{Refusal, Verdict};

mod settle; // settle.rt: a position settled

// Reads the line, position by position. On accept the buffer is left with the graph of the whole line.
pub fn read(
    rules: &mut [u8],
    cells: &mut [u8],
    words: &mut [u64],
    buf: &mut [u16],
    at: &mut [u16],
    work: &mut [u16],
    line: &[u8],
    size: usize,
) -> Result<Verdict, Refusal>
    requires readable { Readable size line.now (mem rules.old cells.old words.old) (length buf.old) }
    requires at_len { (length at.old ≡ 256) × (length work.old ≡ 12291) }
    ensures { Reads size line.now (mem rules.old cells.old words.old)
        (mem rules.new cells.new words.new) buf.new result }
{
    let here = Here {
        position: 0,
        start: 0,
        size,
        sets: table::sets_in(rules),
    };
    let counts = Counts::default();
    let mut links = Links {
        buf,
        at,
        counts,
        here,
    };
    links.begin();
    read_line(&mut links, work, line, rules, cells, words)
}

// The same from the graph of the root alone.
fn read_line(
    links: &mut Links,
    work: &mut [u16],
    line: &[u8],
    rules: &mut [u8],
    cells: &mut [u8],
    words: &mut [u64],
) -> Result<Verdict, Refusal>
    requires readable { Readable links.old.here.size line.now (mem rules.old cells.old words.old) (length links.old.buf.now) }
    requires begun { (links.old.counts ≡ counts 1 0 0) × ((links.old.here ≡ root links.old.here.size (sets_in rules.old)) × Held links.old.here (graph_of links.old)) }
    requires work_len { length work.old ≡ 12291 }
    ensures same_slices { SameSlices links.old links.new }
    ensures reads { Reads links.old.here.size line.now (mem rules.old cells.old words.old)
        (mem rules.new cells.new words.new) links.new.buf.now result }
{
    for &token in line {
        if !advance(links, work, usize::from(token), rules, cells, words)? {
            return Ok(Verdict {
                accepts: false,
                links: links.counts.links,
            });
        }
    }
    finish(links, work, rules, cells, words)
}

// A position before the last: settles it and moves on. False if no node here takes the token.
fn advance(
    links: &mut Links,
    work: &mut [u16],
    token: usize,
    rules: &mut [u8],
    cells: &mut [u8],
    words: &mut [u64],
) -> Result<bool, Refusal>
    requires stands { Stands links.old.here (mem rules.old cells.old words.old) (graph_of links.old) × (length work.old ≡ 12291) }
    requires position_bound { (links.old.here.position < 255) × ((1 ≤ token) × (token < 128)) }
    ensures same_slices { SameSlices links.old links.new }
    ensures advances { AdvancesOr links.old.here token (mem rules.old cells.old words.old)
        (graph_of links.old) (mem rules.new cells.new words.new) links.new result }
{
    settle(links, work, rules, cells, words)?;
    move_on(links, token, rules, cells, words)
}

// Shifts the token at a settled position: to the next one, if a node here takes it and its links fit.
fn move_on(
    links: &mut Links,
    token: usize,
    rules: &[u8],
    cells: &[u8],
    words: &[u64],
) -> Result<bool, Refusal>
    requires stands { Stands links.old.here (mem rules.now cells.now words.now) (graph_of links.old) }
    requires position_bound { (links.old.here.position < 255) × ((1 ≤ token) × (token < 128)) }
    ensures same_slices { SameSlices links.old links.new }
    ensures moves { MovesOn links.old.here token (mem rules.now cells.now words.now)
        (graph_of links.old) links.new result }
{
    let had = links.counts.links;
    saturation::shift(links, token, rules, cells, words);
    if links.counts.over != 0 {
        return Err(Refusal::NoLinks);
    }
    Ok(links.counts.links != had)
}

// The last position: settles it and judges.
fn finish(
    links: &mut Links,
    work: &mut [u16],
    rules: &mut [u8],
    cells: &mut [u8],
    words: &mut [u64],
) -> Result<Verdict, Refusal>
    requires { Stands links.old.here (mem rules.old cells.old words.old) (graph_of links.old) × (length work.old ≡ 12291) }
    ensures same { SamePlace links.old links.new }
    ensures finishes { Finishes links.old.here [] (mem rules.old cells.old words.old)
        (graph_of links.old) (mem rules.new cells.new words.new)
        links.new.buf.now result }
{
    settle(links, work, rules, cells, words)?; // first: an expansion may bring the accept mark
    Ok(judge(links, rules, cells, words))
}

// The verdict at a settled position: accept if a node here has the accept mark.
fn judge(links: &Links, rules: &[u8], cells: &[u8], words: &[u64]) -> Verdict
    requires standing { Standing links.now.here links.now.buf.now links.now.counts }
    requires formed { Formed (mem rules.now cells.now words.now) × (links.now.here.sets ≡ sets_in rules.now) }
    ensures { Judges links.now.here (mem rules.now cells.now words.now) links.now.buf.now links.now.counts result }
{
    Verdict {
        accepts: saturation::accepts(links.buf, rules, cells, words, links.counts, links.here),
        links: links.counts.links,
    }
}
