// "Reach. Set 0, and every target of an expanded reachable set."
//
// The marks are a bit for each set. A set is marked when it is met, and queued at the same time; so it is queued once, and the
// work is done when every set of the queue has been scanned. Set 0 is marked from the start: the 0 of a row, which says that there
// is no target, is never new.
ghost use Rattle.std.specs.Prelude.{◌≡◌, ◌+◌, ◌≤◌, ◌<◌, get_or, MatchOption};
ghost use Rattle.collection.specs.Reach.{cell_of, Row, Rows, Marks, Queued, Adds};

// The sets that are reached so far: a mark for each, and the first n of the queue, of which so many were taken out to be scanned.
#[derive(Drop)]
struct Reached {
    marks: [u64; 4],
    queue: [u8; 256],
    n: usize,
    taken: usize,
}

// A mark for each set that is reached; `sets` is the pool's size.
pub fn reach(cells: &[u8], sets: usize) -> [u64; 4]
    requires { Rows sets cells.now }
    ensures { Marks sets cells.now result }
{
    let mut reached = Reached {
        marks: [1, 0, 0, 0],
        queue: [0; 256],
        n: 1,
        taken: 0,
    };
    while let Some(s) = reached.next() {
        reached.scan(cells, s as usize);
    }
    reached.marks
}

impl Reached {
    // The next set of the queue.
    fn next(&mut self) -> Option<u8>
        requires { self.old.n ≤ 256 }
        ensures same { (self.new.marks ≡ self.old.marks) × (self.new.queue ≡ self.old.queue) × (self.new.n ≡ self.old.n) }
        ensures next { MatchOption result
            (self.old.n ≤ self.old.taken)
            (λ s. (self.old.taken < self.old.n) × (s ≡ get_or self.old.queue self.old.taken 0) × (self.new.taken ≡ self.old.taken + 1)) }
    {
        let s = *self.queue[..self.n].get(self.taken)?;
        self.taken += 1;
        Some(s)
    }

    // Marks and queues the targets of set s.
    fn scan(&mut self, cells: &[u8], s: usize)
        requires row { Row cells.now s }
        requires queued { Queued self.old.marks self.old.queue self.old.n }
        ensures adds { Adds 127 (λ k. cell_of cells.now s (k + 1))
            self.old.marks self.old.queue self.old.n
            self.new.marks self.new.queue self.new.n }
        ensures taken { self.new.taken ≡ self.old.taken }
    {
        if cells[s * table::ROW] < table::EXPANDED {
            return; // not expanded: there are none
        }
        for &t in &cells[s * table::ROW + 1..s * table::ROW + table::ROW] {
            self.meet(t);
        }
    }

    // Marks and queues t, unless it is marked.
    fn meet(&mut self, t: u8)
        requires { Queued self.old.marks self.old.queue self.old.n }
        ensures adds { Adds 1 (λ k. t)
            self.old.marks self.old.queue self.old.n
            self.new.marks self.new.queue self.new.n }
        ensures taken { self.new.taken ≡ self.old.taken }
    {
        if kernels::has(&self.marks, 0, t as usize) {
            return;
        }
        kernels::put(&mut self.marks, 0, t as usize);
        self.queue[self.n] = t;
        self.n += 1;
    }
}
