// What a caller reads from a table: the numbers of a rule, how many sets are in use, and of a set its mark, its targets, its
// kernel's items and its reductions.
ghost use Rattle.std.specs.Prelude.{◌+◌, ◌*◌, ◌≤◌, ◌<◌, length, get_or};
ghost use Rattle.table.specs.Layout.{rule_number};
ghost use Rattle.skydoublet.specs.Told.{Told, Holds, ToldInUse, ToldBit, ToldNext};

// Number k of the ten of rule r, 0 where it isn't there.
pub fn skydoublet_rule_number(rules: &[u8], r: usize, k: usize) -> u8
    ensures { Told ((2 + r * 10 + 10 ≤ length rules.now) × (k < 10)) result (rule_number rules.now r k) 0 }
{
    if rules.len() < 12 {
        return 0;
    }
    if (rules.len() - table::SIZES) / table::RULE <= r {
        return 0;
    }
    if table::RULE <= k {
        return 0;
    }
    rules[table::SIZES + r * table::RULE + k]
}

// How many sets are in use, 0 where the slices are too short.
pub fn skydoublet_sets_in_use(rules: &[u8], cells: &[u8]) -> usize
    ensures { ToldInUse rules.now cells.now result }
{
    if rules.len() < 2 {
        return 0;
    }
    let sets = table::sets_in(rules);
    if cells.len() / table::ROW < sets {
        return 0;
    }
    collection::room::in_use(cells, sets)
}

// The mark of set s, 0 where it isn't there.
pub fn skydoublet_mark(cells: &[u8], s: usize) -> u8
    ensures { Told (Holds cells.now s 128) result (get_or cells.now (s * 128 + 0) 0) 0 }
{
    if cells.len() / table::ROW <= s {
        return 0;
    }
    table::mark(cells, s)
}

// The target of set s on the symbol x, 0 for none, and where the set or the symbol isn't there.
pub fn skydoublet_target(cells: &[u8], s: usize, x: usize) -> usize
    ensures { Told (Holds cells.now s 128 × (1 ≤ x) × (x < 128)) result (get_or cells.now (s * 128 + x) 0) 0 }
{
    if cells.len() / table::ROW <= s {
        return 0;
    }
    if x < 1 {
        return 0;
    }
    if table::ROW <= x {
        return 0;
    }
    table::target(cells, s, x)
}

// The lowest item of set s's kernel that is not below `from`: 8 r + d for rule r with dot d, 1024 where there is none.
pub fn skydoublet_next_item(words: &[u64], s: usize, from: usize) -> usize
    ensures { ToldNext words.now s 0 16 from result }
{
    if words.len() / kernels::SET_WORDS <= s {
        return kernels::ITEMS;
    }
    next(
        words,
        s * kernels::SET_WORDS + 0,
        kernels::KERNEL_WORDS,
        from,
    )
}

// The lowest rule that set s reduces and that is not below `from`, 128 where there is none.
pub fn skydoublet_next_reduction(words: &[u64], s: usize, from: usize) -> usize
    ensures { ToldNext words.now s 16 2 from result }
{
    if words.len() / kernels::SET_WORDS <= s {
        return table::MOST_RULES;
    }
    next(
        words,
        s * kernels::SET_WORDS + kernels::KERNEL_WORDS,
        kernels::REDUCTION_WORDS,
        from,
    )
}

// The next bit of n words as a number, n * 64 where there is none.
fn next(words: &[u64], at: usize, n: usize, from: usize) -> usize
    requires { (at + n ≤ length words.now) × (n ≤ 18) }
    ensures { ToldBit words.now at n from result }
{
    kernels::next(words, at, n, from).unwrap_or(n * 64)
}
