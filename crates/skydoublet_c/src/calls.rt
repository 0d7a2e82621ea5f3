// 01's calls, and the form test.
ghost use Rattle.laws.specs.Choice.{Tells};
ghost use Rattle.theory.specs.Calls.{add, delete, collect, restart};
ghost use Rattle.table.specs.Layout.{mem};
ghost use Rattle.table.specs.Laid.{Formed};
ghost use Rattle.table.specs.Becomes.{Promised};
ghost use Rattle.generator.specs.Calls.{NewPromised};
ghost use Rattle.skydoublet.specs.Parse.{ParsesTo};

// New: a table of so many sets and places for rules.
#[unsafe(no_mangle)]
pub extern "C" fn skydoublet_new(
    rules: &mut [u8],
    cells: &mut [u8],
    words: &mut [u64],
    sets: usize,
    places: usize,
) -> u8
    ensures { NewPromised (mem rules.old cells.old words.old) (mem rules.new cells.new words.new)
        sets places result }
{
    skydoublet::calls::skydoublet_new(rules, cells, words, sets, places)
}

// Add. The number of the rule, 0 on a refusal, goes to `number`.
#[unsafe(no_mangle)]
pub extern "C" fn skydoublet_add(
    rules: &mut [u8],
    cells: &mut [u8],
    words: &mut [u64],
    left: u8,
    right: &[u8],
    number: &mut usize,
) -> u8
    ensures { Promised (λ t. add t left right.now)
        (mem rules.old cells.old words.old) (mem rules.new cells.new words.new)
        result number.new }
{
    skydoublet::calls::skydoublet_add(rules, cells, words, left, right, number)
}

// Delete. The number of the rule, 0 on a refusal, goes to `number`.
#[unsafe(no_mangle)]
pub extern "C" fn skydoublet_delete(
    rules: &mut [u8],
    cells: &mut [u8],
    words: &mut [u64],
    left: u8,
    right: &[u8],
    number: &mut usize,
) -> u8
    ensures { Promised (λ t. delete t left right.now)
        (mem rules.old cells.old words.old) (mem rules.new cells.new words.new)
        result number.new }
{
    skydoublet::calls::skydoublet_delete(rules, cells, words, left, right, number)
}

// Collect.
#[unsafe(no_mangle)]
pub extern "C" fn skydoublet_collect(rules: &mut [u8], cells: &mut [u8], words: &mut [u64]) -> u8
    ensures { Promised collect
        (mem rules.old cells.old words.old) (mem rules.new cells.new words.new)
        result 0 }
{
    skydoublet::calls::skydoublet_collect(rules, cells, words)
}

// Restart.
#[unsafe(no_mangle)]
pub extern "C" fn skydoublet_restart(rules: &mut [u8], cells: &mut [u8], words: &mut [u64]) -> u8
    ensures { Promised restart
        (mem rules.old cells.old words.old) (mem rules.new cells.new words.new)
        result 0 }
{
    skydoublet::calls::skydoublet_restart(rules, cells, words)
}

// Parse. The number of links, 0 on a refusal, goes to `number`.
#[unsafe(no_mangle)]
pub extern "C" fn skydoublet_parse(
    rules: &mut [u8],
    cells: &mut [u8],
    words: &mut [u64],
    links: &mut [u16],
    pool: usize,
    line: &[u8],
    number: &mut usize,
) -> u8
    ensures { ParsesTo pool line.now (mem rules.old cells.old words.old)
        (mem rules.new cells.new words.new) links.old links.new result number.new }
{
    skydoublet::calls::skydoublet_parse(rules, cells, words, links, pool, line, number)
}

// Whether the lent numbers are laid out and hold a table in form.
#[unsafe(no_mangle)]
pub extern "C" fn skydoublet_formed(rules: &[u8], cells: &[u8], words: &[u64]) -> bool
    ensures { Tells result (Formed (mem rules.now cells.now words.now)) }
{
    skydoublet::calls::skydoublet_formed(rules, cells, words)
}
