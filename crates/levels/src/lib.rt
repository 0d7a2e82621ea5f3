// The nodes that the paths of k links from a node lead to.
//
// A reduction goes down from a node level by level: the nodes under it, the nodes under those, and so on. A level is a list
// that has each node once, so an ambiguous line costs nodes and links at every level and never a walk of every path. A level
// costs the nodes and links that it meets and nothing else: one node with one link, the usual case, is a handful of
// instructions.
//
// The lists stand in one array of work numbers that the caller lends, 12,291 for the 4,097 nodes that a pool can have: two
// lists, the level at hand and the next, which change places, and an index for each node into the list that is being made.
// Whether a node is in that list takes two reads, as in the sparse set of Briggs and Torczon: the index may hold anything, and
// counts only if the list has the node there. So nothing is ever cleared, and the array need not be zero at first.
#![tactic(auto)]

ghost use Rattle.std.specs.Prelude.{◌≡◌, ℕ, ◌+◌, ◌*◌, ◌<◌, ◌≤◌, length};
ghost use Rattle.laws.specs.Choice.{Tells};
ghost use Rattle.links.specs.Held.{Chained};
ghost use Rattle.levels.specs.Lists.{On, Listed, Made, Puts, listed};
ghost use Rattle.levels.specs.Reached.{Spread, Under, Reached};

// How many nodes a pool can have, and so the longest list.
pub const NODES: usize = 4097;

// The work numbers: two lists and the index.
pub const WORK: usize = 12291;

// A level, or a list that is being made into one: on which side of the work numbers it stands, and how many nodes it has.
#[derive(Clone, Copy)]
pub struct Level {
    pub side: usize,
    pub count: usize,
}

impl Level {
    // Node number i of the list. One place behind the longest list may be asked for: that an index is too far is for `has` to refuse.
    pub fn node(self, work: &[u16], i: usize) -> usize
        requires { (length work.now ≡ 12291) × ((self.side ≤ 1) × (i ≤ 4097)) }
        ensures { result ≡ listed work.now self.side i }
    {
        links::number(work, self.side * NODES + i)
    }

    // Whether node n is in the list that is being made.
    fn has(self, work: &[u16], n: usize) -> bool
        requires work_len { (length work.now ≡ 12291) × ((self.side ≤ 1) × (n < 4097)) }
        requires made { Made work.now self.side self.count 4097 }
        ensures { Tells result (On work.now self.side self.count n) }
    {
        let i = links::number(work, 2 * NODES + n);
        i < self.count && self.node(work, i) == n
    }

    // Puts node n onto the list, unless it is there.
    fn put(&mut self, work: &mut [u16], n: usize)
        requires work_len { (length work.old ≡ 12291) × ((self.old.side ≤ 1) × (n < 4097)) }
        requires made { Made work.old self.old.side self.old.count 4097 }
        ensures side { self.new.side ≡ self.old.side }
        ensures puts { (nodes : ℕ) → nodes ≤ 4097 → n < nodes → Made work.old self.old.side self.old.count nodes
            → Puts self.old.side nodes n work.old self.old.count work.new self.new.count }
    {
        if self.has(work, n) {
            return;
        }
        links::put(work, self.side * NODES + self.count, n);
        links::put(work, 2 * NODES + n, self.count);
        self.count += 1;
    }

    // Puts the nodes under node n onto the list.
    fn spread(&mut self, buf: &[u16], work: &mut [u16], nodes: usize, links: usize, n: usize)
        requires chained { Chained buf.now nodes links }
        requires work_len { (length work.old ≡ 12291) × ((self.old.side ≤ 1) × (n < nodes)) }
        requires made { Made work.old self.old.side self.old.count nodes }
        ensures side { self.new.side ≡ self.old.side }
        ensures spread { Spread buf.now links self.old.side nodes n work.old self.old.count work.new self.new.count }
    {
        let mut k = links::last_link(buf, n);
        while k != 0 {
            self.put(work, links::under(buf, k));
            k = links::before(buf, k);
        }
    }

    // The level under this one, on the other side.
    fn under(self, buf: &[u16], work: &mut [u16], nodes: usize, links: usize) -> Level
        requires chained { Chained buf.now nodes links }
        requires work_len { (length work.old ≡ 12291) × (self.side ≤ 1) }
        requires listed { Listed work.old self.side self.count nodes }
        ensures { (result.side ≤ 1) × Under buf.now links nodes work.old self.side self.count work.new result.side result.count }
    {
        let mut next = Level {
            side: 1 - self.side,
            count: 0,
        };
        for i in 0..self.count {
            let n = self.node(work, i);
            next.spread(buf, work, nodes, links, n);
        }
        next
    }
}

// The nodes that the paths of k links from node n lead to. It only reads the graph, so it takes the buffer alone, and not `Links`: a
// caller may share it.
pub fn levels(
    buf: &[u16],
    work: &mut [u16],
    nodes: usize,
    links: usize,
    n: usize,
    k: usize,
) -> Level
    requires chained { Chained buf.now nodes links }
    requires work_len { (length work.old ≡ 12291) × (n < nodes) }
    ensures { (result.side ≤ 1) × Reached buf.now links nodes n k work.new result.side result.count }
{
    links::put(work, 0, n);
    let mut level = Level { side: 0, count: 1 };
    for _ in 0..k {
        level = level.under(buf, work, nodes, links);
    }
    level
}
