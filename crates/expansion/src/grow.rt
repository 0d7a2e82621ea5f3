// An expansion for which there is room: the sets that the closure leads to, in ascending order of the symbols, then the set's row.
ghost use Rattle.std.specs.Prelude.{◌≡◌, ◌+◌, ◌*◌, ◌≤◌, ◌<◌, length, get_or};
ghost use Rattle.laws.specs.Choice.{when};
ghost use Rattle.kernels.specs.Write.{write_words};
ghost use Rattle.theory.specs.Expansion.{closure};
ghost use Rattle.table.specs.Layout.{sets as setsOf, mem, sets_in, rules_in, kernel_seen, view_rules};
ghost use Rattle.table.specs.Laid.{FormedRules, Within, HoldsKernel};
ghost use Rattle.lookup.specs.Lookup.{Answered};
ghost use Rattle.expansion.specs.Inner.{kernel_on, Aimed, Leadable, LedTo, full_row, Growable, Grew};

use kernels::Bits;

// The closure of set s's kernel.
pub fn closure_of(rules: &[u8], words: &[u64], s: usize) -> [u64; 16]
    requires { FormedRules rules.now × (s * 18 + 18 ≤ length words.now) × Within (rules_in rules.now) words.now (s * 18) }
    ensures { HoldsKernel (rules_in rules.now) result 0
        (closure (view_rules rules.now) (kernel_seen (rules_in rules.now) words.now (s * 18))) }
{
    let mut kernel = [0u64; 16];
    kernels::copy(&mut kernel, 0, words, s * kernels::SET_WORDS);
    closure::close(rules, kernel)
}

// Makes set s the expansion of its kernel, for whose sets there is room.
pub fn grow(
    rules: &[u8],
    cells: &mut [u8],
    words: &mut [u64],
    s: usize,
    closure: [u64; 16],
    symbols: [u64; 2],
)
    requires { Growable (mem rules.now cells.old words.old) s closure symbols }
    ensures { Grew rules.now (setsOf cells.old words.old)
        (setsOf cells.new words.new) s }
{
    let mut row = lead(rules, cells, words, closure, symbols);
    let done = closure::completed_items(rules, closure);
    row[0] = mark(done.accepts);
    let reductions = done.reductions;
    fill(cells, words, s, &row, &reductions);
}

// The mark of an expanded set: "Completed items of START set the accept mark."
fn mark(accepts: bool) -> u8
    ensures { result ≡ when accepts 3 2 }
{
    if accepts {
        table::ACCEPTING
    } else {
        table::EXPANDED
    }
}

// The sets to which the symbols lead, as a row: "For each symbol X after a dot in the closure, ascending".
fn lead(
    rules: &[u8],
    cells: &mut [u8],
    words: &mut [u64],
    closure: [u64; 16],
    symbols: [u64; 2],
) -> [u8; 128]
    requires { Leadable rules.now (setsOf cells.old words.old) closure symbols }
    ensures { LedTo rules.now (setsOf cells.old words.old)
        (setsOf cells.new words.new) closure result }
{
    let mut row = [0u8; 128];
    for x in Bits::of(&symbols, 0, 2) {
        row[x] = lead_on(rules, cells, words, closure, x);
    }
    row
}

// The set to which x leads: "the set with that kernel, or .. a new unexpanded set at the lowest free set number".
fn lead_on(rules: &[u8], cells: &mut [u8], words: &mut [u64], closure: [u64; 16], x: usize) -> u8
    requires { Aimed rules.now (setsOf cells.old words.old) closure x }
    ensures { Answered (sets_in rules.now) (rules_in rules.now)
        (setsOf cells.old words.old) (setsOf cells.new words.new)
        (kernel_on rules.now closure x) result }
{
    let kernel = closure::moved(rules, closure, x);
    lookup::find_or_make(rules, cells, words, &kernel) as u8
}

// Writes set s's row, mark and targets, and its reductions.
fn fill(cells: &mut [u8], words: &mut [u64], s: usize, row: &[u8; 128], reductions: &[u64; 2])
    requires { (s < 255) × (s * 128 + 128 ≤ length cells.old) × (s * 18 + 18 ≤ length words.old) }
    ensures { setsOf cells.new words.new ≡ full_row s row.now reductions.now
        (setsOf cells.old words.old) }
{
    put_row(cells, s * table::ROW, row);
    words[s * kernels::SET_WORDS + kernels::KERNEL_WORDS] = reductions[0];
    words[s * kernels::SET_WORDS + kernels::LAST_WORD] = reductions[1];
}

// Writes a row's 128 cells from `at` on.
fn put_row(cells: &mut [u8], at: usize, row: &[u8; 128])
    requires { at + 128 ≤ length cells.old }
    ensures { cells.new ≡ write_words cells.old at (λ k. get_or row.now k 0) 128 }
{
    cells[at..at + table::ROW].copy_from_slice(row);
}
