// Add and Delete on a table in form: checked on `&` slices, then done.
ghost use Rattle.symbols.specs.Answer.{DONE, number_of, answer_of, number_with};
ghost use Rattle.theory.specs.Table.{CURRENT};
ghost use Rattle.theory.specs.Calls.{add_in_form, delete_in_form};
ghost use Rattle.table.specs.Layout.{mem, view};
ghost use Rattle.table.specs.Laid.{Formed};
ghost use Rattle.changes.specs.Change.{place_of};
ghost use Rattle.checks.specs.Found.{add_later};
ghost use Rattle.generator.specs.Calls.{Does, LaterFree};

use symbols::{Refusal, Rule};

// "a withdrawn rule that is equal takes its own number back. Otherwise the lowest free number; if none is free, collection comes first."
pub fn add(
    rules: &mut [u8],
    cells: &mut [u8],
    words: &mut [u64],
    left: u8,
    right: &[u8],
) -> Result<usize, Refusal>
    requires { Formed (mem rules.old cells.old words.old) }
    ensures { Does (add_in_form (view (mem rules.old cells.old words.old)) left right.now)
        (mem rules.old cells.old words.old) (mem rules.new cells.new words.new)
        (number_of (answer_of result)) (number_with result) }
{
    let (number, rule) = checks::check_add(rules, left, right)?;
    match number {
        Some(number) => {
            changes::put_rule(rules, cells, words, number, table::CURRENT, rule);
            Ok(number)
        }
        None => Ok(add_later(rules, cells, words, rule)),
    }
}

// Where no number is free: collection, then the lowest number that it freed. There is one, by the check.
fn add_later(rules: &mut [u8], cells: &mut [u8], words: &mut [u64], rule: Rule) -> usize
    requires formed { Formed (mem rules.old cells.old words.old) }
    requires later_free { LaterFree (mem rules.old cells.old words.old) rule }
    ensures { Does (add_later (view (mem rules.old cells.old words.old)) (place_of CURRENT rule))
        (mem rules.old cells.old words.old) (mem rules.new cells.new words.new)
        DONE result }
{
    collection::collect(rules, cells, words);
    let number = checks::lowest_free(rules).unwrap();
    changes::put_rule(rules, cells, words, number, table::CURRENT, rule);
    number
}

// "the number becomes withdrawn, and sets become unexpanded as in Add"
pub fn delete(
    rules: &mut [u8],
    cells: &mut [u8],
    words: &mut [u64],
    left: u8,
    right: &[u8],
) -> Result<usize, Refusal>
    requires { Formed (mem rules.old cells.old words.old) }
    ensures { Does (delete_in_form (view (mem rules.old cells.old words.old)) left right.now)
        (mem rules.old cells.old words.old) (mem rules.new cells.new words.new)
        (number_of (answer_of result)) (number_with result) }
{
    let (number, rule) = checks::check_delete(rules, left, right)?;
    changes::put_rule(rules, cells, words, number, table::WITHDRAWN, rule);
    Ok(number)
}
