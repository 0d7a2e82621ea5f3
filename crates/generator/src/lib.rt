// The generator: a grammar table in lent numbers, and the calls that make it and change its rules.
//
// Three lent slices are the table; the crate `table` says where each number stands. Whoever lends them may lend anything: every call
// takes slices of any length with any numbers in them, and ends with an answer. `new` asks only that the sizes be in range and the
// slices long enough. Every other call first tests the form, once; what is no table in form is answered BAD-TABLE and left alone,
// and so is all else that a refusal names. Past its checks a call cannot fail.
//
// The form test is most of what a call costs: a pass over the table. Then Add and Delete look once at each rule and at one cell of each
// set, and write the rows that change. A table is never searched for what a change made unreachable: such sets stay, for a later
// parse may need them again, until `collect`, `restart`, an Add that finds no number or an expansion that finds no set frees them.
//
// A withdrawn rule keeps its number while a kernel may still name it. Added again, it takes that number back; otherwise a number
// becomes free only by collection.
//
// Each contract names the model's call on the table that the numbers hold (`Promised`, of `table`), and with it the answer, the rule
// number and every lent number afterwards.
#![tactic(auto)]

ghost use Rattle.symbols.specs.Answer.{number_of, answer_of, number_with};
ghost use Rattle.theory.specs.Calls.{add, delete, collect, restart};
ghost use Rattle.table.specs.Layout.{mem};
ghost use Rattle.table.specs.Becomes.{Promised};
ghost use Rattle.generator.specs.Calls.{NewPromised};

use symbols::Refusal;

mod change; // change.rt: Add and Delete on a table in form

// New: a table of so many sets and places for rules. No rules, set 0 with an empty kernel, unexpanded.
pub fn new(
    rules: &mut [u8],
    cells: &mut [u8],
    words: &mut [u64],
    sets: usize,
    places: usize,
) -> Result<(), Refusal>
    ensures { NewPromised (mem rules.old cells.old words.old) (mem rules.new cells.new words.new)
        sets places (number_of (answer_of result)) }
{
    if !checks::fits(rules, cells, words, sets, places) {
        return Err(Refusal::BadPool);
    }
    changes::make(rules, cells, words, sets, places);
    Ok(())
}

// Add: the rule of a left symbol and a right side, in loose numbers. It answers the rule's number.
pub fn add(
    rules: &mut [u8],
    cells: &mut [u8],
    words: &mut [u64],
    left: u8,
    right: &[u8],
) -> Result<usize, Refusal>
    ensures { Promised (λ t. add t left right.now)
        (mem rules.old cells.old words.old) (mem rules.new cells.new words.new)
        (number_of (answer_of result)) (number_with result) }
{
    if !form::is_formed(rules, cells, words) {
        return Err(Refusal::BadTable);
    }
    change::add(rules, cells, words, left, right)
}

// Delete: the rule becomes withdrawn. It answers the rule's number.
pub fn delete(
    rules: &mut [u8],
    cells: &mut [u8],
    words: &mut [u64],
    left: u8,
    right: &[u8],
) -> Result<usize, Refusal>
    ensures { Promised (λ t. delete t left right.now)
        (mem rules.old cells.old words.old) (mem rules.new cells.new words.new)
        (number_of (answer_of result)) (number_with result) }
{
    if !form::is_formed(rules, cells, words) {
        return Err(Refusal::BadTable);
    }
    change::delete(rules, cells, words, left, right)
}

// Collect: every set that is not reached and every withdrawn number becomes free.
pub fn collect(rules: &mut [u8], cells: &mut [u8], words: &mut [u64]) -> Result<(), Refusal>
    ensures { Promised collect
        (mem rules.old cells.old words.old) (mem rules.new cells.new words.new)
        (number_of (answer_of result)) 0 }
{
    if !form::is_formed(rules, cells, words) {
        return Err(Refusal::BadTable);
    }
    collection::collect(rules, cells, words);
    Ok(())
}

// Restart: set 0 becomes unexpanded, then collection.
pub fn restart(rules: &mut [u8], cells: &mut [u8], words: &mut [u64]) -> Result<(), Refusal>
    ensures { Promised restart
        (mem rules.old cells.old words.old) (mem rules.new cells.new words.new)
        (number_of (answer_of result)) 0 }
{
    if !form::is_formed(rules, cells, words) {
        return Err(Refusal::BadTable);
    }
    changes::unexpand_start(cells, words);
    collection::collect(rules, cells, words);
    Ok(())
}
