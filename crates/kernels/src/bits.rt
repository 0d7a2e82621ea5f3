// A walk over the bits that are set, in ascending order.
ghost use Rattle.std.specs.Prelude.{◌≡◌, ◌+◌, ◌-◌, ◌*◌, ◌≤◌, length};

use super::next;

// The set bits of some words that have not been passed yet: of the n words from `at` on, those from the bit `from` on. n is at most
// a set's 18 words, so that a bit's number fits.
#[derive(Clone, Copy)]
pub struct Bits<'a> {
    pub words: &'a [u64],
    pub at: usize,
    pub n: usize,
    pub from: usize,
    ghost inside: { at + n ≤ length words.now },
    ghost few: { n ≤ 18 },
}

impl<'a> Bits<'a> {
    ghost use Rattle.kernels.specs.Bits.{Over};

    // Those of the n words from `at` on.
    pub fn of(words: &'a [u64], at: usize, n: usize) -> Bits<'a>
        requires { (at + n ≤ length words.now) × (n ≤ 18) }
        ensures over { Over words.now at n result }
        ensures start { result.from ≡ 0 }
    {
        Bits {
            words,
            at,
            n,
            from: 0,
        }
    }
}

impl<'a> Iterator for Bits<'a> {
    ghost use Rattle.std.specs.Iterator.{at_most};
    ghost use Rattle.kernels.specs.Bits.{GivesBit};

    type Item = usize;

    ghost next_gives = { GivesBit };

    ghost remaining = { λ b. at_most (b.n * 64 - b.from) };

    fn next(&mut self) -> Option<usize> {
        let bit = next(self.words, self.at, self.n, self.from)?;
        self.from = bit + 1;
        Some(bit)
    }
}
