// The graph of links of one line, in one lent buffer.
//
// A node is a position and a set; the root is position 0, set 0. A link goes from a node to the node under it. The graph only
// grows, position by position, so nodes and links are numbers, and the nodes of the position at hand are the last ones, from
// `start` on. `add_link` makes a link and, where it is the first from its place, its source node. It finds the source node in
// constant time, by the map `at` from sets to nodes, and compares the link only with those of the same source.
//
// A record is six numbers. Record k is link k, from 1: its source node, the node under it, the link of the same source before
// it (0: none). Record n is node n, from 0, the root: its position, its set, its last link. A node is made with its first
// link, so records never run out before links do: a pool of `size` links needs 6 (size + 1) numbers.
//
// What is unusual: `at` is never cleared. As in the sparse set of Briggs and Torczon, an entry counts only if the node that it
// names is of this position and has that set; entries of earlier positions are below `start`. A link that does not fit sets
// the mark `over` and changes nothing else: the graph stays valid, and the caller may ask when it likes.
#![tactic(auto)]

ghost use Rattle.std.specs.Prelude.{◌≡◌, ◌+◌, ◌*◌, ◌<◌, ◌≤◌, length, get_or, set};
ghost use Rattle.laws.specs.Choice.{Tells};
ghost use Rattle.links.specs.Records.{source, under, previous, position, in_set, last_link, counts, put_node, put_link};
ghost use Rattle.links.specs.Held.{Edge, Held, FindsAt, NodeOf, Adds, Cleared};
ghost use Rattle.links.specs.Lent.{graph_of, InChains, SameSlices, SamePlace, root};

// The numbers of a record.
pub const RECORD: usize = 6;

// Of a link: its source comes first, then the node under it and the link before it.
pub const UNDER: usize = 1;

pub const BEFORE: usize = 2;

// Of a node: its position, its set and its last link.
pub const POSITION: usize = 3;

pub const SET: usize = 4;

pub const LAST: usize = 5;

// How many nodes and links there are; and the mark `over`, 1 if a link was asked for that the pool has no room for, else 0. It is
// a whole word: as a bool, in a struct that was handed from call to call, its padding was copied in pieces, which tripled the time.
#[derive(Clone, Copy, Default)]
pub struct Counts {
    pub nodes: usize,
    pub links: usize,
    pub over: usize,
}

// The position at hand and its first node, with the sizes of the link pool and of the set pool.
#[derive(Clone, Copy)]
pub struct Here {
    pub position: usize,
    pub start: usize,
    pub size: usize,
    pub sets: usize,
}

// The graph: the buffer and the map that the caller lends, how far the graph has come, and the position at hand. Who lends them
// makes it of its fields: what a function returns with two `&mut` in it, its caller's proof loses sight of.
#[derive(Drop)]
pub struct Links<'a> {
    pub buf: &'a mut [u16],
    pub at: &'a mut [u16],
    pub counts: Counts,
    pub here: Here,
}

impl Links<'_> {
    // Makes it the graph of the root alone.
    pub fn begin(&mut self)
        requires size_in_bounds { ((self.old.here.size + 1) * 6 ≤ length self.old.buf.now) × ((self.old.here.size ≤ 4096) × (length self.old.at.now ≡ 256)) }
        requires le_sets { (1 ≤ self.old.here.sets) × (self.old.here.sets ≤ 255) }
        ensures same_slices { SameSlices self.old self.new }
        ensures here { self.new.here ≡ root self.old.here.size self.old.here.sets }
        ensures counts { self.new.counts ≡ counts 1 0 0 }
        ensures held { Held self.new.here (graph_of self.new) }
    {
        self.here.position = 0;
        self.here.start = 0;
        put_node(self.buf, 0, 0, 0);
        put(self.at, 0, 0);
        self.counts = Counts {
            nodes: 1,
            links: 0,
            over: 0,
        };
    }

    // Adds the link from set s at this position to node m, unless it is there.
    pub fn add_link(&mut self, s: usize, m: usize)
        requires held { Held self.old.here (graph_of self.old) }
        requires m_lt_nodes { (m < self.old.counts.nodes) × (s < self.old.here.sets) }
        ensures same { SamePlace self.old self.new }
        ensures adds { Adds self.old.here s m (graph_of self.old) (graph_of self.new) }
    {
        let Counts {
            nodes,
            links,
            over: _,
        } = self.counts;
        match self.node_of(s) {
            Some(n) => {
                if self.has_link(n, m) {
                    return;
                }
                if links == self.here.size {
                    self.counts.over = 1;
                    return;
                }
                put_link(self.buf, n, m, links + 1);
            }
            None => {
                if links == self.here.size {
                    self.counts.over = 1;
                    return;
                }
                put_node(self.buf, nodes, self.here.position, s);
                put_link(self.buf, nodes, m, links + 1);
                put(self.at, s, nodes);
                self.counts.nodes = nodes + 1;
            }
        }
        self.counts.links = links + 1;
    }

    // The set of node n.
    pub fn set_of(&self, n: usize) -> usize
        requires { n * 6 + 4 < length self.now.buf.now }
        ensures { result ≡ in_set self.now.buf.now n }
    {
        set_of(self.buf, n)
    }

    // Whether a link goes from node n to node m.
    fn has_link(&self, n: usize, m: usize) -> bool
        requires chained { InChains self.now }
        requires n_lt_nodes { n < self.now.counts.nodes }
        ensures { Tells result (Edge self.now.buf.now self.now.counts.links n m) }
    {
        let mut k = last_link(self.buf, n);
        while k != 0 {
            if under(self.buf, k) == m {
                return true;
            }
            k = before(self.buf, k);
        }
        false
    }

    // The node of set s at this position.
    fn node_of(&self, s: usize) -> Option<usize>
        requires nodes_in_bounds { (self.now.counts.nodes * 6 ≤ length self.now.buf.now) × (s < length self.now.at.now) }
        requires finds_at { FindsAt self.now.buf.now self.now.at.now self.now.here.start self.now.counts.nodes }
        ensures { NodeOf self.now.buf.now self.now.here.start self.now.counts.nodes s result }
    {
        let n = number(self.at, s);
        if self.here.start <= n && n < self.counts.nodes && self.set_of(n) == s {
            return Some(n);
        }
        None
    }
}

// The number at i.
pub fn number(b: &[u16], i: usize) -> usize
    requires { i < length b.now }
    ensures { result ≡ get_or b.now i 0 }
{
    b[i] as usize
}

// Puts x at i.
pub fn put(b: &mut [u16], i: usize, x: usize)
    requires { (i < length b.old) × (x < 65536) }
    ensures { b.new ≡ set b.old i x }
{
    b[i] = x as u16;
}

// The source node of link k. It asks for a place more than it reads, as `position` does: an edit that reads the wrong one is then refused
// by what is promised, and not by an index.
pub fn source(b: &[u16], k: usize) -> usize
    requires { k * 6 + 1 < length b.now }
    ensures { result ≡ source b.now k }
{
    number(b, k * RECORD)
}

// The node under link k.
pub fn under(b: &[u16], k: usize) -> usize
    requires { k * 6 + 1 < length b.now }
    ensures { result ≡ under b.now k }
{
    number(b, k * RECORD + UNDER)
}

// The link of the same source before link k, 0 where there is none.
pub fn before(b: &[u16], k: usize) -> usize
    requires { k * 6 + 2 < length b.now }
    ensures { result ≡ previous b.now k }
{
    number(b, k * RECORD + BEFORE)
}

// The position of node n.
pub fn position(b: &[u16], n: usize) -> usize
    requires { n * 6 + 4 < length b.now }
    ensures { result ≡ position b.now n }
{
    number(b, n * RECORD + POSITION)
}

// The set of node n.
pub fn set_of(b: &[u16], n: usize) -> usize
    requires { n * 6 + 4 < length b.now }
    ensures { result ≡ in_set b.now n }
{
    number(b, n * RECORD + SET)
}

// The last link of node n, 0 where it has none.
pub fn last_link(b: &[u16], n: usize) -> usize
    requires { n * 6 + 5 < length b.now }
    ensures { result ≡ last_link b.now n }
{
    number(b, n * RECORD + LAST)
}

// Makes node n, of set s at position p.
fn put_node(buf: &mut [u16], n: usize, p: usize, s: usize)
    requires { (n * 6 + 5 < length buf.old) × ((p < 65536) × (s < 65536)) }
    ensures { buf.new ≡ put_node buf.old n p s }
{
    buf[n * RECORD + POSITION] = p as u16;
    buf[n * RECORD + SET] = s as u16;
    buf[n * RECORD + LAST] = 0;
}

// Makes link k, from node n to node m, the last of n's.
fn put_link(buf: &mut [u16], n: usize, m: usize, k: usize)
    requires { ((n * 6 + 5 < length buf.old) × (k * 6 + 5 < length buf.old)) × ((n < 65536) × ((m < 65536) × (k < 65536))) }
    ensures { buf.new ≡ put_link buf.old n m k }
{
    let last = buf[n * RECORD + LAST];
    buf[k * RECORD] = n as u16;
    buf[k * RECORD + UNDER] = m as u16;
    buf[k * RECORD + BEFORE] = last;
    buf[n * RECORD + LAST] = k as u16;
}

// Makes the first n numbers zero.
pub fn clear(b: &mut [u16], n: usize)
    requires { n ≤ length b.old }
    ensures { Cleared n b.old b.new }
{
    b[..n].fill(0);
}
