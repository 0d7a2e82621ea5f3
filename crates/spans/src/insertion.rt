// A key put among those that are there, in ascending order, each once. Keys come nearly in order, so the search is from the back.
ghost use Rattle.std.specs.Prelude.{◌≡◌, ◌-◌, ◌≤◌, ◌<◌, length};
ghost use Rattle.laws.specs.Choice.{Tells};
ghost use Rattle.spans.specs.Area.{key_at};
ghost use Rattle.spans.specs.Gathered.{Ascending};
ghost use Rattle.spans.specs.Steps.{Belongs, Opened, Inserts};

use super::area::{Area, number};

impl Area<'_> {
    // Puts the key among the places, unless it is there.
    pub(crate) fn insert(&mut self, key: usize)
        requires { Ascending self.old.numbers.now self.old.count × (self.old.count < length self.old.numbers.now) }
        ensures inserts { Inserts self.old.numbers.now self.new.numbers.now self.old.count key self.new.count }
        ensures same { self.new.numbers.ghost_name ≡ self.old.numbers.ghost_name }
    {
        let e = self.place_for(key);
        if self.is_before(e, key) {
            return;
        }
        self.make_room(e);
        self.numbers[e] = key as u64;
        self.count += 1;
    }

    // The first place with a greater key.
    fn place_for(&self, key: usize) -> usize
        requires { self.now.count ≤ length self.now.numbers.now }
        ensures { Belongs self.now.numbers.now self.now.count key result }
    {
        for e in (0..self.count).rev() {
            if number(self.numbers, e) <= key {
                return e + 1;
            }
        }
        0
    }

    // Whether the key stands just before place e.
    fn is_before(&self, e: usize, key: usize) -> bool
        requires { e ≤ length self.now.numbers.now }
        ensures { Tells result ((0 < e) × (key_at self.now.numbers.now (e - 1) ≡ key)) }
    {
        e > 0 && number(self.numbers, e - 1) == key
    }

    // Moves the keys from place `from` on one place up.
    fn make_room(&mut self, from: usize)
        requires { (from ≤ self.old.count) × (self.old.count < length self.old.numbers.now) }
        ensures opened { Opened self.old.numbers.now self.new.numbers.now from self.old.count }
        ensures count { self.new.count ≡ self.old.count }
        ensures same { self.new.numbers.ghost_name ≡ self.old.numbers.ghost_name }
    {
        self.numbers.copy_within(from..self.count, from + 1);
    }
}
