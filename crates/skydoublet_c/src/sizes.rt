// How long the slices have to be for pools of given sizes, 0 for a size outside its range, which New or Parse would refuse.
ghost use Rattle.std.specs.Prelude.{◌+◌, ◌*◌, ◌≤◌};
ghost use Rattle.skydoublet.specs.Told.{Told};

// The numbers of `rules` that so many places for rules need.
#[unsafe(no_mangle)]
pub extern "C" fn skydoublet_rules_for(places: usize) -> usize
    ensures { Told ((1 ≤ places) × (places ≤ 128)) result (2 + places * 10) 0 }
{
    skydoublet::sizes::skydoublet_rules_for(places)
}

// The numbers of `cells` that so many sets need.
#[unsafe(no_mangle)]
pub extern "C" fn skydoublet_cells_for(sets: usize) -> usize
    ensures { Told ((1 ≤ sets) × (sets ≤ 255)) result (sets * 128) 0 }
{
    skydoublet::sizes::skydoublet_cells_for(sets)
}

// The numbers of `words` that so many sets need.
#[unsafe(no_mangle)]
pub extern "C" fn skydoublet_words_for(sets: usize) -> usize
    ensures { Told ((1 ≤ sets) × (sets ≤ 255)) result (sets * 18) 0 }
{
    skydoublet::sizes::skydoublet_words_for(sets)
}

// The numbers of the link buffer that a pool of so many links needs.
#[unsafe(no_mangle)]
pub extern "C" fn skydoublet_links_for(pool: usize) -> usize
    ensures { Told (pool ≤ 4096) result ((pool + 1) * 6) 0 }
{
    skydoublet::sizes::skydoublet_links_for(pool)
}
