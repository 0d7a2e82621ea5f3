// The freeing: what is not needed becomes zero. "What is not in use in the table is zero."
ghost use Rattle.std.specs.Prelude.{◌≡◌, ◌+◌, ◌*◌, ◌≤◌, ◌<◌, length};
ghost use Rattle.laws.specs.Loops.{up_to};
ghost use Rattle.table.specs.Layout.{sets as setsOf};
ghost use Rattle.table.specs.Laid.{HasRow};
ghost use Rattle.collection.specs.Sweep.{free_unmarked, free_withdrawn};

// Frees each of the sets that is not marked.
pub fn free_unmarked(cells: &mut [u8], words: &mut [u64], marks: &[u64; 4], sets: usize)
    requires { (sets ≤ 255) × (sets * 128 ≤ length cells.old) × (sets * 18 ≤ length words.old) }
    ensures { setsOf cells.new words.new
        ≡ up_to sets (free_unmarked marks.now) (setsOf cells.old words.old) }
{
    for s in 0..sets {
        free_unless_marked(cells, words, marks, s);
    }
}

// Frees set s, unless it is marked: its 128 cells and 18 words become zero.
fn free_unless_marked(cells: &mut [u8], words: &mut [u64], marks: &[u64; 4], s: usize)
    requires s_bound { s < 255 }
    requires has_row { HasRow s (setsOf cells.old words.old) }
    ensures { setsOf cells.new words.new
        ≡ free_unmarked marks.now s (setsOf cells.old words.old) }
{
    if kernels::has(marks, 0, s) {
        return;
    }
    table::clear(cells, s * table::ROW, table::ROW);
    kernels::clear(words, s * kernels::SET_WORDS, kernels::SET_WORDS);
}

// Frees each of the n rule numbers that is withdrawn.
pub fn free_withdrawn(rules: &mut [u8], n: usize)
    requires { 2 + n * 10 ≤ length rules.old }
    ensures { rules.new ≡ up_to n free_withdrawn rules.old }
{
    for r in 0..n {
        free_if_withdrawn(rules, r);
    }
}

// Frees rule number r if it is withdrawn: its ten numbers become zero.
fn free_if_withdrawn(rules: &mut [u8], r: usize)
    requires { 2 + r * 10 + 10 ≤ length rules.old }
    ensures { rules.new ≡ free_withdrawn r rules.old }
{
    if rules[table::SIZES + r * table::RULE] == table::WITHDRAWN {
        table::clear(rules, table::SIZES + r * table::RULE, table::RULE);
    }
}
