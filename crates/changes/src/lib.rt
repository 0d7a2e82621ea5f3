// Changes of a lent table: a rule put at a number, set 0 made unexpanded, a table made new.
//
// The calls above decide what is changed; here it is done, and nothing is tested. `put_rule` asks that the numbers be laid out, which
// every table in form is, and `make` that the sizes fit; their contracts say what table the numbers hold afterwards, in the model's
// words. `unexpand_start` writes the row of set 0 whatever the numbers are, and says which numbers they are afterwards.
//
// A change of a rule makes a set unexpanded exactly if it has a transition on the rule's left symbol. The kernel alone does not
// tell: it is the closure that decides, and its trace is the transition. So `put_rule` looks at one cell of each set and writes
// only the rows that it finds. For a START rule it writes set 0 alone, whose kernel is made anew from all rules; that is one look
// at each rule.
//
// A row is made bare by zeros and its mark: an unexpanded set has no target and no reduction. Its kernel's words are not touched.
#![tactic(auto)]

ghost use Rattle.std.specs.Prelude.{◌≡◌};
ghost use Rattle.theory.specs.Calls.{put_rule, new_table};
ghost use Rattle.table.specs.Layout.{mem, sets, view};
ghost use Rattle.table.specs.Laid.{HasRow};
ghost use Rattle.table.specs.Becomes.{Becomes};
ghost use Rattle.changes.specs.Touch.{unexpand};
ghost use Rattle.changes.specs.Change.{place_of, MayPut, Fits};

use symbols::Rule;

mod touch; // touch.rt: the sets that a change of a rule touches

// Puts rule x at number r, current (1) or withdrawn (2), and makes unexpanded what that changes.
pub fn put_rule(rules: &mut [u8], cells: &mut [u8], words: &mut [u64], r: usize, state: u8, x: Rule)
    requires { MayPut (mem rules.old cells.old words.old) r state x }
    ensures { Becomes (mem rules.old cells.old words.old)
        (mem rules.new cells.new words.new)
        (put_rule (view (mem rules.old cells.old words.old)) r (place_of state x)) }
{
    let left = x.left.0 as usize;
    table::put_rule(rules, r, state, x);
    touch::touch(rules, cells, words, left);
}

// Makes set 0 unexpanded. Its kernel stays.
pub fn unexpand_start(cells: &mut [u8], words: &mut [u64])
    requires { HasRow 0 (sets cells.old words.old) }
    ensures { sets cells.new words.new ≡ unexpand 0 (sets cells.old words.old) }
{
    touch::unexpand(cells, words, 0);
}

// Makes a table of so many sets and places for rules: no rules, set 0 with an empty kernel, unexpanded.
pub fn make(rules: &mut [u8], cells: &mut [u8], words: &mut [u64], sets: usize, places: usize)
    requires { Fits (mem rules.old cells.old words.old) sets places }
    ensures { Becomes (mem rules.old cells.old words.old)
        (mem rules.new cells.new words.new)
        (new_table sets places) }
{
    table::clear(rules, 0, table::SIZES + places * table::RULE);
    rules[0] = sets as u8;
    rules[1] = places as u8;
    table::clear(cells, 0, sets * table::ROW);
    cells[0] = table::UNEXPANDED;
    kernels::clear(words, 0, sets * kernels::SET_WORDS);
}
