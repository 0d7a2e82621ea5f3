// The whole listing, piece by piece into one text.
ghost use Rattle.std.specs.Prelude.{[], ◌+◌, ◌*◌, ◌≤◌, ◌<◌, length};
ghost use Rattle.laws.specs.Choice.{when};
ghost use Rattle.table.specs.Layout.{sets_in, mem, view};
ghost use Rattle.table.specs.Laid.{Laid};
ghost use Rattle.text.specs.Puts.{Adds};
ghost use Rattle.listing.specs.Printed.{body, listing};
ghost use Rattle.listing.specs.Walk.{used};

use text::Text;

// Puts the contents line, then one body per set.
pub fn put_listing(rules: &[u8], cells: &[u8], words: &[u64], text: &mut Text)
    requires laid { Laid (mem rules.now cells.now words.now) }
    requires cells_len_bound { (length cells.now ≤ 16384) × (text.old.end + 1056768 ≤ length text.old.bytes.now) }
    ensures { Adds text.old text.new (listing (view (mem rules.now cells.now words.now))) }
{
    let sets = table::sets_in(rules);
    listing::contents(cells, sets, text);
    for s in 0..sets {
        put_body(rules, cells, words, s, text);
    }
}

// Puts the body of set s, if the set is in use.
fn put_body(rules: &[u8], cells: &[u8], words: &[u64], s: usize, text: &mut Text)
    requires laid { Laid (mem rules.now cells.now words.now) }
    requires s_bound { (s < sets_in rules.now) × (text.old.end + 8192 ≤ length text.old.bytes.now) }
    ensures body { Adds text.old text.new
        (when (used cells.now s) (body (view (mem rules.now cells.now words.now)) s) []) }
    ensures within { text.new.end ≤ text.old.end + 8192 }
{
    if table::mark(cells, s) != table::FREE {
        listing::body(cells, words, s, text);
    }
}
