// The first place of each end.
ghost use Rattle.std.specs.Prelude.{◌≡◌, ◌+◌, ◌≤◌, ◌<◌, length, set};
ghost use Rattle.spans.specs.Area.{area_for};
ghost use Rattle.spans.specs.Gathered.{First, Ascending};
ghost use Rattle.spans.specs.Steps.{Passed, Begun};

use super::area::{Area, FIRSTS, end};

impl Area<'_> {
    // Puts the first place of each end up to n + 1, which no span has: behind the ends of the line stands the number of spans.
    pub(crate) fn put_firsts(&mut self, n: usize)
        requires { (Ascending self.old.numbers.now self.old.count × (self.old.count ≤ 4097)) × ((n ≤ 255) × (area_for n ≤ length self.old.numbers.now)) }
        ensures begun { Begun self.old.numbers.now self.new.numbers.now self.old.count (n + 2) }
        ensures count { self.new.count ≡ self.old.count }
        ensures same { self.new.numbers.ghost_name ≡ self.old.numbers.ghost_name }
    {
        let mut e = 0;
        for j in 0..n + 2 {
            e = self.first_from(j, e);
            self.numbers[FIRSTS + j] = e as u64;
        }
    }

    // The first place, from e on, whose span ends at j or later.
    fn first_from(&self, j: usize, from: usize) -> usize
        requires { (Ascending self.now.numbers.now self.now.count × (self.now.count ≤ length self.now.numbers.now)) × Passed self.now.numbers.now self.now.count j from }
        ensures { First self.now.numbers.now self.now.count j result }
    {
        for e in from..self.count {
            if end(self.numbers, e) >= j {
                return e;
            }
        }
        self.count
    }
}
