// 01's calls, and the form test.
ghost use Rattle.std.specs.Prelude.{◌≡◌};
ghost use Rattle.laws.specs.Choice.{Tells};
ghost use Rattle.symbols.specs.Answer.{number_of, answer_of};
ghost use Rattle.theory.specs.Calls.{add, delete, collect, restart};
ghost use Rattle.table.specs.Layout.{mem};
ghost use Rattle.table.specs.Laid.{Formed};
ghost use Rattle.table.specs.Becomes.{Promised};
ghost use Rattle.generator.specs.Calls.{NewPromised};
ghost use Rattle.skydoublet.specs.Parse.{ParsesTo};

use symbols::Refusal;

// 01's numbers of the answers that are no refusal. A caller in C gets an answer as its number.
const DONE: u8 = 0;

const ACCEPT: u8 = 1;

const REJECT: u8 = 2;

// The number of what a call answers that is done or refused.
fn answer_of<T: Copy>(done: Result<T, Refusal>) -> u8
    ensures { result ≡ number_of (answer_of done) }
{
    match done {
        Ok(_) => DONE,
        Err(refusal) => refusal.number(),
    }
}

// New: a table of so many sets and places for rules.
pub fn skydoublet_new(
    rules: &mut [u8],
    cells: &mut [u8],
    words: &mut [u64],
    sets: usize,
    places: usize,
) -> u8
    ensures { NewPromised (mem rules.old cells.old words.old) (mem rules.new cells.new words.new)
        sets places result }
{
    answer_of(generator::new(rules, cells, words, sets, places))
}

// Add. The number of the rule, 0 on a refusal, goes to `number`.
pub fn skydoublet_add(
    rules: &mut [u8],
    cells: &mut [u8],
    words: &mut [u64],
    left: u8,
    right: &[u8],
    number: &mut usize,
) -> u8
    ensures { Promised (λ t. add t left right.now)
        (mem rules.old cells.old words.old) (mem rules.new cells.new words.new)
        result number.new }
{
    let changed = generator::add(rules, cells, words, left, right);
    *number = changed.unwrap_or(0);
    answer_of(changed)
}

// Delete. The number of the rule, 0 on a refusal, goes to `number`.
pub fn skydoublet_delete(
    rules: &mut [u8],
    cells: &mut [u8],
    words: &mut [u64],
    left: u8,
    right: &[u8],
    number: &mut usize,
) -> u8
    ensures { Promised (λ t. delete t left right.now)
        (mem rules.old cells.old words.old) (mem rules.new cells.new words.new)
        result number.new }
{
    let changed = generator::delete(rules, cells, words, left, right);
    *number = changed.unwrap_or(0);
    answer_of(changed)
}

// Collect.
pub fn skydoublet_collect(rules: &mut [u8], cells: &mut [u8], words: &mut [u64]) -> u8
    ensures { Promised collect
        (mem rules.old cells.old words.old) (mem rules.new cells.new words.new)
        result 0 }
{
    answer_of(generator::collect(rules, cells, words))
}

// Restart.
pub fn skydoublet_restart(rules: &mut [u8], cells: &mut [u8], words: &mut [u64]) -> u8
    ensures { Promised restart
        (mem rules.old cells.old words.old) (mem rules.new cells.new words.new)
        result 0 }
{
    answer_of(generator::restart(rules, cells, words))
}

// Parse. The number of links, 0 on a refusal, goes to `number`.
pub fn skydoublet_parse(
    rules: &mut [u8],
    cells: &mut [u8],
    words: &mut [u64],
    links: &mut [u16],
    pool: usize,
    line: &[u8],
    number: &mut usize,
) -> u8
    ensures { ParsesTo pool line.now (mem rules.old cells.old words.old)
        (mem rules.new cells.new words.new) links.old links.new result number.new }
{
    match recogniser::parse(rules, cells, words, links, pool, line) {
        Ok(verdict) => {
            *number = verdict.links;
            if verdict.accepts { ACCEPT } else { REJECT }
        }
        Err(refusal) => {
            *number = 0;
            refusal.number()
        }
    }
}

// Whether the lent numbers are laid out and hold a table in form.
pub fn skydoublet_formed(rules: &[u8], cells: &[u8], words: &[u64]) -> bool
    ensures { Tells result (Formed (mem rules.now cells.now words.now)) }
{
    form::is_formed(rules, cells, words)
}
