// Kernels: sets of items, kept as bits.
//
// An item is a rule number and a dot: rule r with dot d is item 8 r + d. A kernel is 16 words of a lent slice, from a place
// `at` on, one bit for each item of 128 rules. In a table a set has 18 words, from 18 s on: its kernel, then 2 words with a
// bit for each rule that it reduces. One space of bits serves both: bit i below 1024 is an item, bit 1024 + r a reduction.
//
// `has` and `put` touch one word. `next` looks at one word for every 64 bits that it passes, so a walk over all items costs
// their number and 16 words. `clear`, `copy` and `count` pass over their words once; `equal`, `within` and `is_empty` stop at the first
// word that decides. `find` compares kernel after kernel, at most 16 words a set.
//
// No function tests a place when it runs: its contract asks that the words be there. Nothing here knows which rules are
// current, nor how long they are. A test's contract is an equation with a test of specs/, so that a caller's `if` has that
// test true or false; proofs/ says what it means (`same_iff`, `within_iff`, `empty_iff`).
#![tactic(auto)]

ghost use Rattle.std.specs.Prelude.{◌≡◌, ◌+◌, ◌*◌, ◌/◌, ◌≤◌, ◌<◌, length, get_or};
ghost use Rattle.kernels.specs.Write.{write_words};
ghost use Rattle.kernels.specs.Kernel.{holds, put, same, within, find, empty, items, Next};

mod bits; // bits.rt: a walk over the bits that are set
pub mod word; // word.rt: the bits of one word

pub use bits::Bits;

// The words of a kernel; of a set, its kernel and its reductions; and of these the last.
pub const KERNEL_WORDS: usize = 16;

pub const REDUCTION_WORDS: usize = 2;

pub const SET_WORDS: usize = 18;

pub const LAST_WORD: usize = 17;

// The dots of a rule, 0 to 7, and the bits of a kernel: those of a set's reductions come behind them.
pub const DOTS: usize = 8;

pub const ITEMS: usize = 1024;

// Whether the kernel at `at` holds the item.
pub fn has(words: &[u64], at: usize, item: usize) -> bool
    requires { at + item / 64 < length words.now }
    ensures { result ≡ holds words.now at item }
{
    word::has(words[at + item / 64], item % 64)
}

// Puts the item into the kernel at `at`.
pub fn put(words: &mut [u64], at: usize, item: usize)
    requires { at + item / 64 < length words.old }
    ensures { words.new ≡ put words.old at item }
{
    let i = at + item / 64;
    words[i] = word::with(words[i], item % 64);
}

// Makes the n words from `at` on zero: 16 for a kernel, 2 for a set's reductions, 18 for both.
pub fn clear(words: &mut [u64], at: usize, n: usize)
    requires { at + n ≤ length words.old }
    ensures { words.new ≡ write_words words.old at (λ k. 0) n }
{
    words[at..at + n].fill(0);
}

// Makes the kernel at `at` that at `from` of src.
pub fn copy(words: &mut [u64], at: usize, src: &[u64], from: usize)
    requires { (at + 16 ≤ length words.old) × (from + 16 ≤ length src.now) }
    ensures { words.new ≡ write_words words.old at (λ k. get_or src.now (from + k) 0) 16 }
{
    words[at..at + KERNEL_WORDS].copy_from_slice(&src[from..from + KERNEL_WORDS]);
}

// Whether the kernel at i of a is the kernel at j of b.
pub fn equal(a: &[u64], i: usize, b: &[u64], j: usize) -> bool
    requires { (i + 16 ≤ length a.now) × (j + 16 ≤ length b.now) }
    ensures { result ≡ same a.now i b.now j }
{
    // no `==` of two slices: the form test of a large table took half as long again
    for k in 0..KERNEL_WORDS {
        if a[i + k] != b[j + k] {
            return false;
        }
    }
    true
}

// Whether every bit of the n words from i of a is set in the n words from j of b.
pub fn within(a: &[u64], i: usize, b: &[u64], j: usize, n: usize) -> bool
    requires { (i + n ≤ length a.now) × (j + n ≤ length b.now) }
    ensures { result ≡ within a.now i b.now j n }
{
    for k in 0..n {
        if (a[i + k] | b[j + k]) != b[j + k] {
            return false;
        }
    }
    true
}

// The lowest set but 0 whose kernel is the kernel at `at` of key, or 0: no transition leads to set 0, so 0 is free to say
// that there is none.
pub fn find(words: &[u64], sets: usize, key: &[u64], at: usize) -> usize
    requires { (sets * 18 ≤ length words.now) × (at + 16 ≤ length key.now) }
    ensures { result ≡ find words.now sets key.now at }
{
    for s in 1..sets {
        if equal(words, s * SET_WORDS, key, at) {
            return s;
        }
    }
    0
}

// The least bit of the n words from `at` on that is not below `from`. A walk over a kernel's items asks with n = 16, one over
// a set's reductions with n = 2, from its word 16 on; the next question is from the answer + 1. n is at most a set's 18 words,
// so that a bit's number fits.
pub fn next(words: &[u64], at: usize, n: usize, from: usize) -> Option<usize>
    requires { (at + n ≤ length words.now) × (n ≤ 18) }
    ensures { Next words.now at n from result }
{
    let first = from / 64;
    if first >= n {
        return None;
    }
    let rest = words[at + first] >> (from % 64);
    if rest != 0 {
        return Some(from + word::lowest(rest));
    }
    for i in first + 1..n {
        let w = words[at + i];
        if w != 0 {
            return Some(i * 64 + word::lowest(w));
        }
    }
    None
}

// How many items the kernel at `at` holds.
pub fn count(words: &[u64], at: usize) -> usize
    requires { at + 16 ≤ length words.now }
    ensures { result ≡ items words.now at }
{
    let mut sum = 0;
    for k in 0..KERNEL_WORDS {
        sum += word::ones(words[at + k]);
    }
    sum
}

// Whether the kernel at `at` holds no item.
pub fn is_empty(words: &[u64], at: usize) -> bool
    requires { at + 16 ≤ length words.now }
    ensures { result ≡ empty words.now at }
{
    for k in 0..KERNEL_WORDS {
        if words[at + k] != 0 {
            return false;
        }
    }
    true
}
