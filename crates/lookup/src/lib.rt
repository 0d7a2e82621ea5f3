// The set with a kernel: "the transition on X leads to the set with that kernel, or to a new unexpanded set at the lowest free
// set number".
//
// `find` compares the key with the kernel of each set but 0, word by word, and stops at the first that is equal; it reads no
// mark. `find_or_make` adds, where there is none, a pass over the marks and the writing of one mark and 16 words.
//
// The key is a kernel in 16 words that stand by themselves. Where it is not empty, a free set, whose words are zero, is never taken
// for the one looked for (`kernel-set`, proofs/SameKernel.antt). `find_or_make` asks for that and for room: some set has the kernel,
// or a number is free.
#![tactic(auto)]

ghost use Rattle.std.specs.Prelude.{◌≡◌, ◌+◌, ◌*◌, ◌≤◌, ◌<◌, length};
ghost use Rattle.table.specs.Layout.{sets as setsOf, sets_in, rules_in, kernel_seen};
ghost use Rattle.lookup.specs.Lookup.{made, kernel_at, Sought, Asked, Answered};

// The number of the set with the kernel in the key's first 16 words, made where no set has it.
pub fn find_or_make(rules: &[u8], cells: &mut [u8], words: &mut [u64], key: &[u64]) -> usize
    requires { Asked rules.now (setsOf cells.old words.old) key.now }
    ensures { Answered (sets_in rules.now) (rules_in rules.now)
        (setsOf cells.old words.old) (setsOf cells.new words.new)
        (kernel_seen (rules_in rules.now) key.now 0) result }
{
    let old = find(rules, words, key);
    if old != 0 {
        return old;
    }
    let t = collection::room::lowest_free(cells, table::sets_in(rules));
    make(cells, words, t, key);
    t
}

// The set but 0 whose words have the kernel in the key's first 16 words, or 0: no transition leads to set 0.
pub fn find(rules: &[u8], words: &[u64], key: &[u64]) -> usize
    requires { Sought rules.now words.now key.now }
    ensures { result ≡ kernel_at (sets_in rules.now) (rules_in rules.now) words.now
        (kernel_seen (rules_in rules.now) key.now 0) }
{
    kernels::find(words, table::sets_in(rules), key, 0)
}

// Set t becomes unexpanded with the kernel in the key's first 16 words.
fn make(cells: &mut [u8], words: &mut [u64], t: usize, key: &[u64])
    requires { (t < 256) × (t * 128 + 128 ≤ length cells.old) × (t * 18 + 18 ≤ length words.old) × (16 ≤ length key.now) }
    ensures { setsOf cells.new words.new
        ≡ made t key.now (setsOf cells.old words.old) }
{
    cells[t * table::ROW] = table::UNEXPANDED;
    kernels::copy(words, t * kernels::SET_WORDS, key, 0);
}
