// Whether a table may be made: "1 to 255 sets, 1 to 128 rules", and slices as long as that needs.
ghost use Rattle.laws.specs.Choice.{Tells};
ghost use Rattle.table.specs.Layout.{mem};
ghost use Rattle.changes.specs.Change.{Fits};

// The sizes come first: where they are in range, no product wraps.
pub fn fits(rules: &[u8], cells: &[u8], words: &[u64], sets: usize, places: usize) -> bool
    ensures { Tells result (Fits (mem rules.now cells.now words.now) sets places) }
{
    1 <= sets
        && sets <= table::MOST_SETS
        && 1 <= places
        && places <= table::MOST_RULES
        && table::SIZES + places * table::RULE <= rules.len()
        && sets * table::ROW <= cells.len()
        && sets * kernels::SET_WORDS <= words.len()
}
