// Expansion (001, EXPAND) and 01's Room.
//
// `expand` makes a set that is reached and unexpanded an expanded one. Its kernel is closed; on each symbol after a dot it gets a
// transition to the set with the moved kernel, found or made at the lowest free number; its completed items become its reductions
// and its accept mark. If the sets that are not there yet are more than the free ones, collection comes first, and everything is
// looked up again. If there are still too few, it answers false: the collection stays, and the set stays unexpanded.
//
// It costs one closure and, for each symbol, two walks over the closure's items and two searches through the kernels of all sets: one
// to count what is missing, one to find or make. So nothing is written before it is known that there is room. Without room it costs
// a collection and the same again.
//
// The set's own row is written last. Until then the table holds what the model's turn holds, and no half-expanded set is ever seen.
//
// `expand` asks for a table in form and leaves one. All that the layer above may rely on stands in proofs/Promises.antt.
#![tactic(auto)]

ghost use Rattle.table.specs.Layout.{mem};
ghost use Rattle.expansion.specs.Expansion.{Unexpanded, Tried, Expandable, Expands};

mod grow; // grow.rt: the sets that a closure leads to, and the row
mod room; // room.rt: the kernels that no set has

// Expands set s; false if there is no room for the sets that it leads to, even after collection.
pub fn expand(rules: &mut [u8], cells: &mut [u8], words: &mut [u64], s: usize) -> bool
    requires { Expandable (mem rules.old cells.old words.old) s }
    ensures { Expands (mem rules.old cells.old words.old)
        (mem rules.new cells.new words.new) s result }
{
    if try_expand(rules, cells, words, s) {
        return true;
    }
    collection::collect(rules, cells, words);
    try_expand(rules, cells, words, s)
}

// Expands set s if there is room for the sets that it leads to and that are not there yet; else touches nothing.
fn try_expand(rules: &[u8], cells: &mut [u8], words: &mut [u64], s: usize) -> bool
    requires { Unexpanded (mem rules.now cells.old words.old) s }
    ensures { Tried (mem rules.now cells.old words.old)
        (mem rules.now cells.new words.new) s result }
{
    let closure = grow::closure_of(rules, words, s);
    let symbols = closure::symbols_after(rules, closure);
    let missing = room::missing(rules, words, closure, symbols);
    let free = collection::room::free_sets(cells, table::sets_in(rules));
    if missing > free {
        return false;
    }
    grow::grow(rules, cells, words, s, closure, symbols);
    true
}
