// The spans of the links that the link buffer holds.
ghost use Rattle.std.specs.Prelude.{List, ℕ, ◌≡◌, ◌+◌, ◌≤◌, ◌<◌, length};
ghost use Rattle.kernels.specs.Write.{write_words};
ghost use Rattle.table.specs.Layout.{mem, view};
ghost use Rattle.links.specs.Records.{link_of, links_in};
ghost use Rattle.leftmost.specs.Shown.{InHand};
ghost use Rattle.spans.specs.Area.{area_for};
ghost use Rattle.spans.specs.Gathered.{Graphed, Ascending, Gathered};
ghost use Rattle.spans.specs.Steps.{Readable, Takes, Taken};

use super::area::{Area, CHOICES, COSTS, key_of};
use super::symbols_of::symbols_of;
use symbols::Symbol;

impl Area<'_> {
    // Puts the spans of the links, and START's, into the area, whatever it holds: keys in order, each once, nothing kept of any, and
    // where each end begins.
    pub(crate) fn gather(
        &mut self,
        rules: &[u8],
        words: &[u64],
        links: &[u16],
        count: usize,
        line: &[u8],
    )
        requires graphed { Graphed rules.now words.now (length line.now) links.now count }
        requires line_in_bounds { area_for (length line.now) ≤ length self.old.numbers.now }
        ensures gathered { (cells : List ℕ) → Gathered (length line.now)
            (InHand (view (mem rules.now cells words.now)) line.now (links_in links.now count))
            self.new.numbers.now self.new.count }
        ensures same { self.new.numbers.ghost_name ≡ self.old.numbers.ghost_name }
    {
        let symbols = symbols_of(rules, words);
        self.take_links(links, count, &symbols);
        let n = line.len();
        self.insert(key_of(Symbol::START.0 as usize, 0, n));
        let spans = self.count;
        self.forget(COSTS, spans);
        self.forget(CHOICES, spans);
        self.put_firsts(n);
    }

    // Makes the n numbers from `from` on zero: what was kept of so many spans.
    fn forget(&mut self, from: usize, n: usize)
        requires { from + n ≤ length self.old.numbers.now }
        ensures forgotten { self.new.numbers.now ≡ write_words self.old.numbers.now from (λ k. 0) n }
        ensures long { length self.new.numbers.now ≡ length self.old.numbers.now }
        ensures count { self.new.count ≡ self.old.count }
        ensures same { self.new.numbers.ghost_name ≡ self.old.numbers.ghost_name }
    {
        kernels::clear(self.numbers, from, n);
    }

    // Puts the keys of all links, and of nothing else.
    fn take_links(&mut self, links: &[u16], count: usize, symbols: &[u8; 256])
        requires by_index { (k : ℕ) → 1 ≤ k → k ≤ count → Readable links.now k }
        requires count_in_bounds { count < length self.old.numbers.now }
        ensures taken { Taken symbols.now (links_in links.now count) self.new.numbers.now self.new.count }
        ensures long { length self.new.numbers.now ≡ length self.old.numbers.now }
        ensures same { self.new.numbers.ghost_name ≡ self.old.numbers.ghost_name }
    {
        self.count = 0;
        for k in 0..count {
            self.take_link(links, k + 1, symbols);
        }
    }

    // Puts the key of link k, if it is over a non-terminal: a token's link is no span.
    fn take_link(&mut self, links: &[u16], k: usize, symbols: &[u8; 256])
        requires readable { Readable links.now k }
        requires ascending { Ascending self.old.numbers.now self.old.count × (self.old.count < length self.old.numbers.now) }
        ensures takes { Takes symbols.now (link_of links.now k) self.old.numbers.now self.new.numbers.now self.old.count self.new.count }
        ensures long { length self.new.numbers.now ≡ length self.old.numbers.now }
        ensures same { self.new.numbers.ghost_name ≡ self.old.numbers.ghost_name }
    {
        let node = links::source(links, k);
        let x = symbols[links::set_of(links, node)];
        if Symbol(x).is_nonterminal() {
            let end = links::position(links, node);
            let start = links::position(links, links::under(links, k));
            self.insert(key_of(x as usize, start, end));
        }
    }
}
