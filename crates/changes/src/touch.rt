// "every expanded set with a transition on the left symbol becomes unexpanded. For a START rule it is set 0 alone, whose kernel
// also changes."
ghost use Rattle.std.specs.Prelude.{◌≡◌, ◌+◌, ◌*◌, ◌<◌, ◌≤◌, length};
ghost use Rattle.table.specs.Layout.{sets};
ghost use Rattle.table.specs.Laid.{Sized, HasRow};
ghost use Rattle.changes.specs.Touch.{unexpand, unexpand_if, unexpand_all, start_again, touched_by};

use symbols::Symbol;

// What a change of a rule of `left` touches becomes unexpanded.
pub fn touch(rules: &[u8], cells: &mut [u8], words: &mut [u64], left: usize)
    requires left_bound { left < 128 }
    requires sized { Sized rules.now (sets cells.old words.old) }
    ensures { sets cells.new words.new ≡ touched_by rules.now left (sets cells.old words.old) }
{
    if left == Symbol::START.0 as usize {
        start_again(rules, cells, words);
    } else {
        unexpand_all(cells, words, table::sets_in(rules), left);
    }
}

// Every one of n sets with a transition on `left` becomes unexpanded.
fn unexpand_all(cells: &mut [u8], words: &mut [u64], n: usize, left: usize)
    requires n_bound { (n < 256) × (left < 128) }
    requires n_in_bounds { (n * 128 ≤ length cells.old) × (n * 18 ≤ length words.old) }
    ensures { sets cells.new words.new ≡ unexpand_all n left (sets cells.old words.old) }
{
    for s in 0..n {
        unexpand_if(cells, words, left, s);
    }
}

// Set s becomes unexpanded if it has a transition on `left`. The mark need not be looked at: the row of a set that is not expanded
// is zero.
fn unexpand_if(cells: &mut [u8], words: &mut [u64], left: usize, s: usize)
    requires s_bound { (s < 256) × (left < 128) }
    requires has_row { HasRow s (sets cells.old words.old) }
    ensures { sets cells.new words.new ≡ unexpand_if left s (sets cells.old words.old) }
{
    if table::target(cells, s, left) != 0 {
        unexpand(cells, words, s);
    }
}

// Set s becomes unexpanded: mark 1, no target, no reduction.
pub fn unexpand(cells: &mut [u8], words: &mut [u64], s: usize)
    requires s_bound { s < 256 }
    requires has_row { HasRow s (sets cells.old words.old) }
    ensures { sets cells.new words.new ≡ unexpand s (sets cells.old words.old) }
{
    table::clear(cells, s * table::ROW, table::ROW);
    cells[s * table::ROW] = table::UNEXPANDED;
    kernels::clear(
        words,
        s * kernels::SET_WORDS + kernels::KERNEL_WORDS,
        kernels::REDUCTION_WORDS,
    );
}

// Set 0 becomes unexpanded, and its kernel every current START rule with dot 0.
fn start_again(rules: &[u8], cells: &mut [u8], words: &mut [u64])
    requires { Sized rules.now (sets cells.old words.old) }
    ensures { sets cells.new words.new ≡ start_again rules.now (sets cells.old words.old) }
{
    table::clear(cells, 0, table::ROW);
    cells[0] = table::UNEXPANDED;
    kernels::clear(words, 0, kernels::SET_WORDS);
    table::put_starts(rules, words);
}
