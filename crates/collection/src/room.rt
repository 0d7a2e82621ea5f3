// The room in a table, from the sets' marks alone: one byte of each row.
ghost use Rattle.std.specs.Prelude.{◌≡◌, ◌*◌, ◌≤◌, length};
ghost use Rattle.theory.specs.Table.{in_use};
ghost use Rattle.theory.specs.Expansion.{free_sets, lowest_free};
ghost use Rattle.collection.specs.Room.{InTables};

// How many sets are free.
pub fn free_sets(cells: &[u8], sets: usize) -> usize
    requires { sets * 128 ≤ length cells.now }
    ensures { InTables sets cells.now (λ t. free_sets t.sets) result }
{
    // `filter(..).count()` takes a quarter more time
    let mut free = 0;
    for s in 0..sets {
        if cells[s * table::ROW] == table::FREE {
            free += 1;
        }
    }
    free
}

// How many sets are in use.
pub fn in_use(cells: &[u8], sets: usize) -> usize
    requires { sets * 128 ≤ length cells.now }
    ensures { InTables sets cells.now in_use result }
{
    sets - free_sets(cells, sets)
}

// The lowest free set number, 0 if there is none: set 0 is always in use.
pub fn lowest_free(cells: &[u8], sets: usize) -> usize
    requires { sets * 128 ≤ length cells.now }
    ensures { InTables sets cells.now (λ t. lowest_free t.sets) result }
{
    (1..sets)
        .find(|&s| cells[s * table::ROW] == table::FREE)
        .unwrap_or(0)
}
