// Saturation of a position, and the step to the next: Parse's steps 1 and 3 over the graph of links.
//
// The table is only read, in its three lent slices, and must be in form. A caller keeps the graph and the work numbers of `levels`
// from call to call; see the crates `links` and `levels` for what they hold.
//
// A reduction goes down level by level and links each end of its paths, so it costs the nodes and links that it meets. A
// position's nodes are visited in the order of their making, new ones too. One pass suffices where each link that it brought
// came with its source node: then no node that was visited has gained a path. Else a link was added below a node that was
// visited already, and the pass is done again: doing each node's reductions once is 01's third shortcut that goes wrong.
//
// What is unusual: a link that does not fit sets the mark `over`, and the loops run out on a graph that stays valid. So there
// is one place that answers NO-LINKS, in Parse, and none here.
#![tactic(auto)]

ghost use Rattle.std.specs.Prelude.{◌≡◌, ◌+◌, ◌*◌, ◌<◌, ◌≤◌, length};
ghost use Rattle.laws.specs.Choice.{Tells};
ghost use Rattle.table.specs.Layout.{mem, sets_in, view};
ghost use Rattle.table.specs.Laid.{Formed};
ghost use Rattle.links.specs.Records.{in_set, links_in};
ghost use Rattle.links.specs.Held.{Held};
ghost use Rattle.links.specs.Lent.{graph_of, InChains, SameSlices, SamePlace};
ghost use Rattle.levels.specs.Lists.{Listed};
ghost use Rattle.levels.specs.Reached.{Reached};
ghost use Rattle.kernels.specs.Kernel.{has};
ghost use Rattle.saturation.specs.Wanted.{Targets, ToNode, ToList, ToSpan, AtRule, AtNode, AtEvery};
ghost use Rattle.saturation.specs.Moves.{Does, Works};
ghost use Rattle.saturation.specs.Ends.{Saturates, Shifts, Standing, Accepting, Waiting, LowestIn, next};

use kernels::Bits;
use levels::Level;
use links::{Counts, Here, Links};

// Links the target on x of node m's set, at this position, to m; nothing where there is no target.
fn link_to(links: &mut Links, x: usize, m: usize, cells: &[u8])
    requires held { Held links.old.here (graph_of links.old) }
    requires m_lt_nodes { (m < links.old.counts.nodes) × ((1 ≤ x) × (x < 128)) }
    requires sets_in_bounds { (links.old.here.sets * 128 ≤ length cells.now) × Targets links.old.here.sets cells.now }
    ensures same { SamePlace links.old links.new }
    ensures does { Does links.old.here (ToNode links.old.buf.now cells.now links.old.here.position x m) (graph_of links.old) (graph_of links.new) }
{
    let t = links.set_of(m);
    let s = cells[t * table::ROW + x] as usize;
    if s != 0 {
        links.add_link(s, m);
    }
}

// The same for each node of a level.
fn link_level(links: &mut Links, work: &[u16], level: Level, x: usize, cells: &[u8])
    requires held { Held links.old.here (graph_of links.old) }
    requires le_x { ((1 ≤ x) × (x < 128)) × ((links.old.here.sets * 128 ≤ length cells.now) × Targets links.old.here.sets cells.now) }
    requires work_len { (length work.now ≡ 12291) × ((level.side ≤ 1) × Listed work.now level.side level.count links.old.counts.nodes) }
    ensures same { SamePlace links.old links.new }
    ensures does { Does links.old.here (ToList links.old.buf.now cells.now work.now level.side links.old.here.position x level.count) (graph_of links.old) (graph_of links.new) }
{
    for i in 0..level.count {
        link_to(links, x, level.node(work, i), cells);
    }
}

// The reduction by rule r at node n.
fn reduce(
    links: &mut Links,
    work: &mut [u16],
    n: usize,
    r: usize,
    rules: &[u8],
    cells: &[u8],
    words: &[u64],
)
    requires held { Held links.old.here (graph_of links.old) × (length work.old ≡ 12291) }
    requires formed { Formed (mem rules.now cells.now words.now) × (links.old.here.sets ≡ sets_in rules.now) }
    requires n_lt_nodes { (n < links.old.counts.nodes) × ((links.old.here.start ≤ n) × ((r < 128) × (has words.now (in_set links.old.buf.now n * 18) (1024 + r) ≡ 1))) }
    ensures same { SamePlace links.old links.new }
    ensures works { Works (view (mem rules.now cells.now words.now)) links.old.here (AtRule (mem rules.now cells.now words.now) links.old.here.position n r) (graph_of links.old) (graph_of links.new) }
{
    let level = ends(links, work, n, table::len(rules, r));
    link_level(links, work, level, table::left(rules, r), cells);
}

// The nodes that the paths of k links from node n lead to: `levels` of the graph whole. Lent as a part, its slice would not come back to
// `reduce` as it was.
fn ends(links: &Links, work: &mut [u16], n: usize, k: usize) -> Level
    requires chained { InChains links.now }
    requires work_len { (length work.old ≡ 12291) × (n < links.now.counts.nodes) }
    ensures { (result.side ≤ 1) × Reached links.now.buf.now links.now.counts.links links.now.counts.nodes n k work.new result.side result.count }
{
    levels::levels(
        links.buf,
        work,
        links.counts.nodes,
        links.counts.links,
        n,
        k,
    )
}

// The reductions at node n.
fn reduce_node(
    links: &mut Links,
    work: &mut [u16],
    n: usize,
    rules: &[u8],
    cells: &[u8],
    words: &[u64],
)
    requires held { Held links.old.here (graph_of links.old) × (length work.old ≡ 12291) }
    requires formed { Formed (mem rules.now cells.now words.now) × (links.old.here.sets ≡ sets_in rules.now) }
    requires n_lt_nodes { (n < links.old.counts.nodes) × (links.old.here.start ≤ n) }
    ensures same { SamePlace links.old links.new }
    ensures works { Works (view (mem rules.now cells.now words.now)) links.old.here (AtNode (mem rules.now cells.now words.now) links.old.here.position n 128) (graph_of links.old) (graph_of links.new) }
{
    let at = links.set_of(n) * kernels::SET_WORDS + kernels::KERNEL_WORDS;
    for r in Bits::of(words, at, kernels::REDUCTION_WORDS) {
        reduce(links, work, n, r, rules, cells, words);
    }
}

// The reductions at each node of this position, those that come meanwhile too.
fn pass(links: &mut Links, work: &mut [u16], rules: &[u8], cells: &[u8], words: &[u64])
    requires held { Held links.old.here (graph_of links.old) × (length work.old ≡ 12291) }
    requires formed { Formed (mem rules.now cells.now words.now) × (links.old.here.sets ≡ sets_in rules.now) }
    ensures same { SamePlace links.old links.new }
    ensures works { Works (view (mem rules.now cells.now words.now)) links.old.here (AtEvery (mem rules.now cells.now words.now) links.old.here.position links.old.here.start) (graph_of links.old) (graph_of links.new) }
{
    // No range: its end would be read once, and nodes come meanwhile.
    let mut n = links.here.start;
    while n < links.counts.nodes {
        reduce_node(links, work, n, rules, cells, words);
        n += 1;
    }
}

// Saturates this position: passes until each link that one brings comes with its source node, or a link does not fit.
pub fn saturate(links: &mut Links, work: &mut [u16], rules: &[u8], cells: &[u8], words: &[u64])
    requires held { Held links.old.here (graph_of links.old) × ((links.old.counts.over ≡ 0) × (length work.old ≡ 12291)) }
    requires formed { Formed (mem rules.now cells.now words.now) × (links.old.here.sets ≡ sets_in rules.now) }
    ensures same { SamePlace links.old links.new }
    ensures saturates { Saturates (view (mem rules.now cells.now words.now)) links.old.here (graph_of links.old) (graph_of links.new) }
{
    loop {
        let was = links.counts;
        pass(links, work, rules, cells, words);
        let now = links.counts;
        if now.over != 0 {
            return;
        }
        if now.links + was.nodes == now.nodes + was.links {
            return;
        }
    }
}

// Links this position, on x, to the nodes from lo on, below its own: those of the position before.
fn link_span(links: &mut Links, x: usize, lo: usize, cells: &[u8])
    requires held { Held links.old.here (graph_of links.old) × ((lo ≤ links.old.here.start) × (links.old.here.start ≤ links.old.counts.nodes)) }
    requires le_x { ((1 ≤ x) × (x < 128)) × ((links.old.here.sets * 128 ≤ length cells.now) × Targets links.old.here.sets cells.now) }
    ensures same { SamePlace links.old links.new }
    ensures does { Does links.old.here (ToSpan links.old.buf.now cells.now links.old.here.position x lo links.old.here.start) (graph_of links.old) (graph_of links.new) }
{
    for m in lo..links.here.start {
        link_to(links, x, m, cells);
    }
}

// Shifts the token x: for each node here that has a transition on it, links the next position, which is then at hand, to that node.
pub fn shift(links: &mut Links, x: usize, rules: &[u8], cells: &[u8], words: &[u64])
    requires held { Held links.old.here (graph_of links.old) × ((links.old.counts.over ≡ 0) × (links.old.here.position < 255)) }
    requires formed { Formed (mem rules.now cells.now words.now) × (links.old.here.sets ≡ sets_in rules.now) }
    requires le_x { (1 ≤ x) × (x < 128) }
    ensures same_slices { SameSlices links.old links.new }
    ensures here { links.new.here ≡ next links.old.here links.old.counts.nodes }
    ensures shifts { Shifts (view (mem rules.now cells.now words.now)) links.old.here x (graph_of links.old) (graph_of links.new) }
{
    let here = links.here;
    links.here = Here {
        position: here.position + 1,
        start: links.counts.nodes,
        ..here
    };
    link_span(links, x, here.start, cells);
}

// Whether a node here has the accept mark. It only reads the graph, as `first_waiting` does, so these take the buffer alone, and not
// `Links`: a caller may share it.
pub fn accepts(
    buf: &[u16],
    rules: &[u8],
    cells: &[u8],
    words: &[u64],
    counts: Counts,
    here: Here,
) -> bool
    requires standing { Standing here buf.now counts }
    requires formed { Formed (mem rules.now cells.now words.now) × (here.sets ≡ sets_in rules.now) }
    ensures { Tells result (Accepting (view (mem rules.now cells.now words.now)) here.position (links_in buf.now counts.links)) }
{
    for m in here.start..counts.nodes {
        let u = links::set_of(buf, m);
        if cells[u * table::ROW] == table::ACCEPTING {
            return true;
        }
    }
    false
}

// The lowest unexpanded set of the nodes here.
fn lowest(buf: &[u16], cells: &[u8], counts: Counts, here: Here) -> Option<usize>
    requires standing { Standing here buf.now counts }
    requires sets_in_bounds { here.sets * 128 ≤ length cells.now }
    ensures { LowestIn buf.now cells.now here.start counts.nodes result }
{
    let mut best = None;
    for m in here.start..counts.nodes {
        let u = links::set_of(buf, m);
        if cells[u * table::ROW] == table::UNEXPANDED {
            best = match best {
                Some(v) if v <= u => best,
                _ => Some(u),
            };
        }
    }
    best
}

// The lowest-numbered unexpanded set of a node here, found by a look at the nodes here and at no other set.
pub fn first_waiting(
    buf: &[u16],
    rules: &[u8],
    cells: &[u8],
    words: &[u64],
    counts: Counts,
    here: Here,
) -> Option<usize>
    requires standing { Standing here buf.now counts }
    requires formed { Formed (mem rules.now cells.now words.now) × (here.sets ≡ sets_in rules.now) }
    ensures { Waiting (view (mem rules.now cells.now words.now)) here.position (links_in buf.now counts.links) result }
{
    lowest(buf, cells, counts, here)
}
