// The contents line of a listing.
ghost use Rattle.std.specs.Prelude.{◌≡◌, [], ◌+◌, ◌*◌, ◌≤◌, ◌<◌, leb, length};
ghost use Rattle.laws.specs.Choice.{when};
ghost use Rattle.text.specs.Puts.{Adds};
ghost use Rattle.listing.specs.Walk.{listed, used, entry_of, contents_of};

use table::{EXPANDED, FREE, mark};
use text::Text;

// Puts the contents line of a table with so many sets.
pub fn contents(cells: &[u8], sets: usize, text: &mut Text)
    requires { (sets ≤ 255) × (sets * 128 ≤ length cells.now) × (text.old.end + 8192 ≤ length text.old.bytes.now) }
    ensures line { Adds text.old text.new (contents_of cells.now sets) }
    ensures within { text.new.end ≤ text.old.end + 8192 }
{
    text.put_byte(b'C');
    put_entries(cells, sets, text);
    text.put_byte(b'\n');
}

// Puts the entry of each set in use.
fn put_entries(cells: &[u8], sets: usize, text: &mut Text)
    requires { (sets ≤ 255) × (sets * 128 ≤ length cells.now) × (text.old.end + 1280 ≤ length text.old.bytes.now) }
    ensures { Adds text.old text.new (listed (used cells.now) (entry_of cells.now) 0 sets) }
{
    for s in 0..sets {
        put_entry(cells, s, text);
    }
}

// Puts a set's number and e or u, if the set is in use.
#[tactic(auto, using(crate::proofs::Lengths::three_digits))]
fn put_entry(cells: &[u8], s: usize, text: &mut Text)
    requires { (s < 255) × (s * 128 + 128 ≤ length cells.now) × (text.old.end + 6 ≤ length text.old.bytes.now) }
    ensures { Adds text.old text.new (when (used cells.now s) (entry_of cells.now s) []) }
{
    let m = mark(cells, s);
    if m != FREE {
        text.put_spaced(s);
        text.put_byte(state_letter(m));
    }
}

// "e expanded or u not"
fn state_letter(mark: u8) -> u8
    ensures { result ≡ when (leb 2 mark) 101 117 }
{
    if mark < EXPANDED { b'u' } else { b'e' }
}
