// The form's clauses on sets. Set s has 128 cells from 128 s on, its mark and its targets on 1 to 127, and 18 words from
// 18 s on, 16 of its kernel and 2 of its reductions. `named` and `current` are the masks.
ghost use Rattle.std.specs.Prelude.{◌≡◌, ◌+◌, ◌*◌, ◌<◌, ◌≤◌, length};
ghost use Rattle.laws.specs.Loops.{all_below};
ghost use Rattle.table.specs.Layout.{sets};
ghost use Rattle.form.specs.Sets.{zeros, bare_fits, target_fits, targets_fit, reductions_fit, expanded_fits, set_fits, kernel_differs, kernel_alone, kernels_differ};

// Whether each of the sets is as the form asks.
pub fn all_fit(cells: &[u8], words: &[u64], n: usize, named: &[u64], current: &[u64]) -> bool
    requires n_in_bounds { (n * 128 ≤ length cells.now) × (n * 18 ≤ length words.now) }
    requires named_len { (length named.now ≡ 18) × (length current.now ≡ 18) }
    ensures { result ≡ all_below n (set_fits n (sets cells.now words.now) named.now current.now) }
{
    (0..n).all(|s| fits(cells, words, n, named, current, s))
}

// Whether set s is as the form asks.
fn fits(cells: &[u8], words: &[u64], n: usize, named: &[u64], current: &[u64], s: usize) -> bool
    requires n_in_bounds { (n * 128 ≤ length cells.now) × (n * 18 ≤ length words.now) × (s < n) }
    requires named_len { (length named.now ≡ 18) × (length current.now ≡ 18) }
    ensures { result ≡ set_fits n (sets cells.now words.now) named.now current.now s }
{
    let mark = table::mark(cells, s);
    if table::ACCEPTING < mark
        || !kernels::within(words, s * kernels::SET_WORDS, named, 0, kernels::SET_WORDS)
    {
        return false;
    }
    if mark < table::EXPANDED {
        bare_fits(cells, words, s)
    } else {
        expanded_fits(cells, words, n, current, s)
    }
}

// Whether a set that is not expanded has its kernel only, and a free one nothing.
fn bare_fits(cells: &[u8], words: &[u64], s: usize) -> bool
    requires { (s * 128 + 128 ≤ length cells.now) × (s * 18 + 18 ≤ length words.now) }
    ensures { result ≡ bare_fits (sets cells.now words.now) s }
{
    are_zero(cells, s * table::ROW + 1, 127)
        && words[s * kernels::SET_WORDS + kernels::KERNEL_WORDS] == 0
        && words[s * kernels::SET_WORDS + kernels::LAST_WORD] == 0
        && (table::mark(cells, s) != table::FREE
            || kernels::is_empty(words, s * kernels::SET_WORDS))
}

// Whether the n cells from `at` on are zero. They are joined and tested once, so that many go at a time.
fn are_zero(cells: &[u8], at: usize, n: usize) -> bool
    requires { at + n ≤ length cells.now }
    ensures { result ≡ zeros cells.now at n }
{
    let mut any: u8 = 0;
    for k in 0..n {
        any |= cells[at + k];
    }
    any == 0
}

// Whether an expanded set's targets are in use, and where its kernel names current rules only, so do its reductions and its
// targets' kernels.
fn expanded_fits(cells: &[u8], words: &[u64], n: usize, current: &[u64], s: usize) -> bool
    requires { (n * 128 ≤ length cells.now) × (n * 18 ≤ length words.now) × (s < n) × (length current.now ≡ 18) }
    ensures { result ≡ expanded_fits n (sets cells.now words.now) current.now s }
{
    let only = kernels::within(
        words,
        s * kernels::SET_WORDS,
        current,
        0,
        kernels::KERNEL_WORDS,
    );
    reductions_fit(words, current, only, s) && targets_fit(cells, words, n, current, only, s)
}

// Whether the reductions are of current rules, if that is asked.
fn reductions_fit(words: &[u64], current: &[u64], only: bool, s: usize) -> bool
    requires { (s * 18 + 18 ≤ length words.now) × (length current.now ≡ 18) }
    ensures { result ≡ reductions_fit words.now current.now only s }
{
    !only
        || kernels::within(
            words,
            s * kernels::SET_WORDS + kernels::KERNEL_WORDS,
            current,
            kernels::KERNEL_WORDS,
            kernels::REDUCTION_WORDS,
        )
}

// Whether each of the 127 targets of set s fits.
fn targets_fit(cells: &[u8], words: &[u64], n: usize, current: &[u64], only: bool, s: usize) -> bool
    requires { (n * 128 ≤ length cells.now) × (n * 18 ≤ length words.now) × (s < n) × (length current.now ≡ 18) }
    ensures { result ≡ targets_fit n (sets cells.now words.now) current.now only s }
{
    (1..table::ROW).all(|x| target_fits(cells, words, n, current, only, table::target(cells, s, x)))
}

// Whether t is no target, or a set in use, whose kernel names current rules only, if that is asked.
fn target_fits(cells: &[u8], words: &[u64], n: usize, current: &[u64], only: bool, t: usize) -> bool
    requires { (n * 128 ≤ length cells.now) × (n * 18 ≤ length words.now) × (length current.now ≡ 18) }
    ensures { result ≡ target_fits n (sets cells.now words.now) current.now only t }
{
    t == 0
        || (t < n
            && table::mark(cells, t) != table::FREE
            && (!only
                || kernels::within(
                    words,
                    t * kernels::SET_WORDS,
                    current,
                    0,
                    kernels::KERNEL_WORDS,
                )))
}

// Whether no two sets in use have equal kernels.
pub fn all_differ(cells: &[u8], words: &[u64], n: usize) -> bool
    requires { (n * 128 ≤ length cells.now) × (n * 18 ≤ length words.now) }
    ensures { result ≡ kernels_differ n (sets cells.now words.now) }
{
    (0..n).all(|s| is_alone(cells, words, s))
}

// Whether no set before s in use has its kernel, unless s is free.
fn is_alone(cells: &[u8], words: &[u64], s: usize) -> bool
    requires { (s * 128 + 128 ≤ length cells.now) × (s * 18 + 18 ≤ length words.now) }
    ensures { result ≡ kernel_alone (sets cells.now words.now) s }
{
    table::mark(cells, s) == table::FREE || (0..s).all(|u| differs(cells, words, s, u))
}

// Whether set u is free or has another kernel than set s. Kernels mostly differ in their first words: they are looked at first.
fn differs(cells: &[u8], words: &[u64], s: usize, u: usize) -> bool
    requires { (s * 128 + 128 ≤ length cells.now) × (s * 18 + 18 ≤ length words.now) × (u < s) }
    ensures { result ≡ kernel_differs (sets cells.now words.now) s u }
{
    !kernels::equal(words, u * kernels::SET_WORDS, words, s * kernels::SET_WORDS)
        || table::mark(cells, u) == table::FREE
}
