// A position settled: saturated and expanded, in turn, until neither brings anything new.
ghost use Rattle.std.specs.Prelude.{◌≡◌, length};
ghost use Rattle.table.specs.Layout.{mem, view, sets_in};
ghost use Rattle.table.specs.Laid.{Formed};
ghost use Rattle.links.specs.Records.{links_in};
ghost use Rattle.links.specs.Lent.{graph_of, SamePlace};
ghost use Rattle.saturation.specs.Ends.{Standing, Waiting};
ghost use Rattle.positions.specs.Reading.{Stands, SettlesOr};

use links::Links;
use symbols::Refusal;

// Settles a position: saturates it, expands the lowest-numbered unexpanded set of a node here, and again, until there is none. A
// set that was expanded stays so, so there are at most as many turns as the pool has sets, and one more.
pub fn settle(
    links: &mut Links,
    work: &mut [u16],
    rules: &mut [u8],
    cells: &mut [u8],
    words: &mut [u64],
) -> Result<(), Refusal>
    requires { Stands links.old.here (mem rules.old cells.old words.old) (graph_of links.old) × (length work.old ≡ 12291) }
    ensures same { SamePlace links.old links.new }
    ensures settles { SettlesOr links.old.here (mem rules.old cells.old words.old)
        (graph_of links.old) (mem rules.new cells.new words.new)
        (graph_of links.new) result }
{
    loop {
        saturation::saturate(links, work, rules, cells, words);
        if links.counts.over != 0 {
            return Err(Refusal::NoLinks);
        }
        let Some(u) = first_waiting(links, rules, cells, words) else {
            return Ok(());
        };
        if !expansion::expand(rules, cells, words, u) {
            return Err(Refusal::NoSets);
        }
    }
}

// The lowest-numbered unexpanded set of a node here: `first_waiting` of the graph whole. Lent as a part, its slice would not come back to
// `settle` as it was.
fn first_waiting(links: &Links, rules: &[u8], cells: &[u8], words: &[u64]) -> Option<usize>
    requires standing { Standing links.now.here links.now.buf.now links.now.counts }
    requires formed { Formed (mem rules.now cells.now words.now) × (links.now.here.sets ≡ sets_in rules.now) }
    ensures { Waiting (view (mem rules.now cells.now words.now)) links.now.here.position (links_in links.now.buf.now links.now.counts.links) result }
{
    saturation::first_waiting(links.buf, rules, cells, words, links.counts, links.here)
}
