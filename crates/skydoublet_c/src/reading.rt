// What a caller reads from a table: the numbers of a rule, how many sets are in use, and of a set its mark, its targets, its
// kernel's items and its reductions.
ghost use Rattle.std.specs.Prelude.{◌+◌, ◌*◌, ◌≤◌, ◌<◌, length, get_or};
ghost use Rattle.table.specs.Layout.{rule_number};
ghost use Rattle.skydoublet.specs.Told.{Told, Holds, ToldInUse, ToldNext};

// Number k of the ten of rule r, 0 where it isn't there.
#[unsafe(no_mangle)]
pub extern "C" fn skydoublet_rule_number(rules: &[u8], r: usize, k: usize) -> u8
    ensures { Told ((2 + r * 10 + 10 ≤ length rules.now) × (k < 10)) result (rule_number rules.now r k) 0 }
{
    skydoublet::reading::skydoublet_rule_number(rules, r, k)
}

// How many sets are in use, 0 where the slices are too short.
#[unsafe(no_mangle)]
pub extern "C" fn skydoublet_sets_in_use(rules: &[u8], cells: &[u8]) -> usize
    ensures { ToldInUse rules.now cells.now result }
{
    skydoublet::reading::skydoublet_sets_in_use(rules, cells)
}

// The mark of set s, 0 where it isn't there.
#[unsafe(no_mangle)]
pub extern "C" fn skydoublet_mark(cells: &[u8], s: usize) -> u8
    ensures { Told (Holds cells.now s 128) result (get_or cells.now (s * 128 + 0) 0) 0 }
{
    skydoublet::reading::skydoublet_mark(cells, s)
}

// The target of set s on the symbol x, 0 for none, and where the set or the symbol isn't there.
#[unsafe(no_mangle)]
pub extern "C" fn skydoublet_target(cells: &[u8], s: usize, x: usize) -> usize
    ensures { Told (Holds cells.now s 128 × (1 ≤ x) × (x < 128)) result (get_or cells.now (s * 128 + x) 0) 0 }
{
    skydoublet::reading::skydoublet_target(cells, s, x)
}

// The lowest item of set s's kernel that is not below `from`: 8 r + d for rule r with dot d, 1024 where there is none.
#[unsafe(no_mangle)]
pub extern "C" fn skydoublet_next_item(words: &[u64], s: usize, from: usize) -> usize
    ensures { ToldNext words.now s 0 16 from result }
{
    skydoublet::reading::skydoublet_next_item(words, s, from)
}

// The lowest rule that set s reduces and that is not below `from`, 128 where there is none.
#[unsafe(no_mangle)]
pub extern "C" fn skydoublet_next_reduction(words: &[u64], s: usize, from: usize) -> usize
    ensures { ToldNext words.now s 16 2 from result }
{
    skydoublet::reading::skydoublet_next_reduction(words, s, from)
}
