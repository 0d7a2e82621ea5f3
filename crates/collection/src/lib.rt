// Reach and collection: which sets a table still needs, and the freeing of the rest.
//
// `collect` frees every set that is not reached from set 0 and every withdrawn rule number; what is in use stays where it is.
// It costs one scan of the row of each expanded set that is reached, one pass over the rules' states, and the clearing of every
// row that is not reached. Nothing is counted between calls: reach is looked for afresh each time, so that a circle of sets to
// which nothing leads is freed like any other (001's reference counts never free circles).
//
// `reach::reach` answers the marks alone, a bit for each set. `room` has what an expansion asks of the sets: how many are free
// or in use, and which is the lowest free one, each by a pass over one byte of every row.
//
// `collect` asks for a table in form and leaves one in form (law `collected-formed` of proofs/Collected.antt).
#![tactic(auto)]

ghost use Rattle.theory.specs.Expansion.{collected};
ghost use Rattle.table.specs.Layout.{mem, view};
ghost use Rattle.table.specs.Laid.{Formed};
ghost use Rattle.table.specs.Becomes.{Becomes};

pub mod reach; // reach.rt: which sets are reached
pub mod room; // room.rt: how many sets are free, and the lowest
mod sweep; // sweep.rt: the freeing

// "Collection frees all other sets and all withdrawn numbers; numbers in use don't move."
pub fn collect(rules: &mut [u8], cells: &mut [u8], words: &mut [u64])
    requires { Formed (mem rules.old cells.old words.old) }
    ensures { Becomes (mem rules.old cells.old words.old)
        (mem rules.new cells.new words.new)
        (collected (view (mem rules.old cells.old words.old))) }
{
    let sets = rules[0] as usize;
    let marks = reach::reach(cells, sets);
    sweep::free_unmarked(cells, words, &marks, sets);
    let n = rules[1] as usize;
    sweep::free_withdrawn(rules, n);
}
