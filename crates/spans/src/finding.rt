// The place of a span, searched among those of its end.
ghost use Rattle.std.specs.Prelude.{◌≡◌, ◌<◌, MatchOption};
ghost use Rattle.spans.specs.Area.{place_of};
ghost use Rattle.spans.specs.Gathered.{OrderedAt};

use super::area::{Area, first, key_of};

impl Area<'_> {
    // The place of the span of x from i to j, if it has one.
    pub(crate) fn find(&self, x: usize, i: usize, j: usize) -> Option<usize>
        requires ordered_at { OrderedAt j self.now.numbers.now self.now.count }
        requires x_bound { (x < 256) × (i < 256) }
        ensures { MatchOption result
            (place_of self.now.numbers.now self.now.count x i j ≡ self.now.count)
            (λ e. (e < self.now.count) × (e ≡ place_of self.now.numbers.now self.now.count x i j)) }
    {
        let key = key_of(x, i, j);
        let from = first(self.numbers, j);
        let ends_here = &self.numbers[from..first(self.numbers, j + 1)];
        match ends_here.binary_search(&(key as u64)) {
            Ok(e) => Some(from + e),
            Err(_) => None,
        }
    }
}
