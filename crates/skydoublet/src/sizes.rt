// How long the slices have to be for pools of given sizes, 0 for a size outside its range, which New or Parse would refuse.
ghost use Rattle.std.specs.Prelude.{◌+◌, ◌*◌, ◌≤◌};
ghost use Rattle.skydoublet.specs.Told.{Told};

// The numbers of `rules` that so many places for rules need.
pub fn skydoublet_rules_for(places: usize) -> usize
    ensures { Told ((1 ≤ places) × (places ≤ 128)) result (2 + places * 10) 0 }
{
    if places < 1 {
        return 0;
    }
    if table::MOST_RULES < places {
        return 0;
    }
    table::SIZES + places * table::RULE
}

// The numbers of `cells` that so many sets need.
pub fn skydoublet_cells_for(sets: usize) -> usize
    ensures { Told ((1 ≤ sets) × (sets ≤ 255)) result (sets * 128) 0 }
{
    if sets < 1 {
        return 0;
    }
    if table::MOST_SETS < sets {
        return 0;
    }
    sets * table::ROW
}

// The numbers of `words` that so many sets need.
pub fn skydoublet_words_for(sets: usize) -> usize
    ensures { Told ((1 ≤ sets) × (sets ≤ 255)) result (sets * 18) 0 }
{
    if sets < 1 {
        return 0;
    }
    if table::MOST_SETS < sets {
        return 0;
    }
    sets * kernels::SET_WORDS
}

// The numbers of the link buffer that a pool of so many links needs.
pub fn skydoublet_links_for(pool: usize) -> usize
    ensures { Told (pool ≤ 4096) result ((pool + 1) * 6) 0 }
{
    if 4096 < pool {
        return 0;
    }
    (pool + 1) * links::RECORD
}
