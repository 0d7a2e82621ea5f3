// The body of one set in a listing.
ghost use Rattle.std.specs.Prelude.{◌≡◌, [], ◌∷◌, ◌+◌, ◌*◌, ◌≤◌, ◌<◌, eqb, leb, length};
ghost use Rattle.laws.specs.Choice.{when};
ghost use Rattle.kernels.specs.Kernel.{holds};
ghost use Rattle.text.specs.Text.{SPACE, digit};
ghost use Rattle.text.specs.Puts.{Adds};
ghost use Rattle.listing.specs.Printed.{accept_text};
ghost use Rattle.listing.specs.Walk.{listed, cell_at, item_of, leads, transition_of, reduction_of, expanded_of, body_of};

use kernels::Bits;
use table::{ACCEPTING, EXPANDED, mark, target};
use text::Text;

// Puts the body of set s.
pub fn body(cells: &[u8], words: &[u64], s: usize, text: &mut Text)
    requires { (s < 255) × (s * 128 + 128 ≤ length cells.now) × (s * 18 + 18 ≤ length words.now)
        × (text.old.end + 8192 ≤ length text.old.bytes.now) }
    ensures body { Adds text.old text.new (body_of cells.now words.now s) }
    ensures within { text.new.end ≤ text.old.end + 8192 }
{
    text.put_byte(b'S');
    text.put_spaced(s);
    put_kernel(words, s * kernels::SET_WORDS, text);
    put_rest(cells, words, s, text);
    text.put_byte(b'\n');
}

// Puts a space and a letter.
fn put_letter(text: &mut Text, letter: u8)
    requires { text.old.end + 2 ≤ length text.old.bytes.now }
    ensures { Adds text.old text.new (SPACE ∷ letter ∷ []) }
{
    text.put_byte(b' ');
    text.put_byte(letter);
}

// Puts K and the items of the kernel whose words begin at `at`.
fn put_kernel(words: &[u64], at: usize, text: &mut Text)
    requires { (at + 16 ≤ length words.now) × (text.old.end + 6160 ≤ length text.old.bytes.now) }
    ensures { Adds text.old text.new (SPACE ∷ 75 ∷ listed (holds words.now at) item_of 0 1024) }
{
    put_letter(text, b'K');
    for item in Bits::of(words, at, kernels::KERNEL_WORDS) {
        put_item(text, item);
    }
}

// Puts an item as rule.dot.
#[tactic(auto, using(crate::proofs::Lengths::three_digits))]
fn put_item(text: &mut Text, item: usize)
    requires { (item < 1024) × (text.old.end + 9 ≤ length text.old.bytes.now) }
    ensures { Adds text.old text.new (item_of item) }
{
    text.put_spaced(item / kernels::DOTS);
    text.put_byte(b'.');
    text.put_number(item % kernels::DOTS);
}

// Puts what an expanded set has beside its kernel, and nothing for an unexpanded one.
fn put_rest(cells: &[u8], words: &[u64], s: usize, text: &mut Text)
    requires { (s < 255) × (s * 128 + 128 ≤ length cells.now) × (s * 18 + 18 ≤ length words.now)
        × (text.old.end + 1560 ≤ length text.old.bytes.now) }
    ensures { Adds text.old text.new (when (leb 2 (cell_at cells.now s 0)) (expanded_of cells.now words.now s) []) }
{
    let m = mark(cells, s);
    if m < EXPANDED {
        return;
    }
    put_transitions(cells, s, text);
    put_reductions(words, s * kernels::SET_WORDS + kernels::KERNEL_WORDS, text);
    put_accept(text, m);
}

// Puts T and the transitions of set s.
fn put_transitions(cells: &[u8], s: usize, text: &mut Text)
    requires { (s < 255) × (s * 128 + 128 ≤ length cells.now) × (text.old.end + 1030 ≤ length text.old.bytes.now) }
    ensures { Adds text.old text.new (SPACE ∷ 84 ∷ listed (leads cells.now s) (transition_of cells.now s) 1 128) }
{
    put_letter(text, b'T');
    for x in 1..table::ROW {
        put_transition(cells, s, x, text);
    }
}

// Puts symbol>target, if the set has a target on the symbol.
#[tactic(auto, using(crate::proofs::Lengths::three_digits))]
fn put_transition(cells: &[u8], s: usize, x: usize, text: &mut Text)
    requires { (s < 255) × (x < 128) × (s * 128 + 128 ≤ length cells.now) × (text.old.end + 10 ≤ length text.old.bytes.now) }
    ensures { Adds text.old text.new (when (leads cells.now s x) (transition_of cells.now s x) []) }
{
    let t = target(cells, s, x);
    if t != 0 {
        text.put_spaced(x);
        text.put_byte(b'>');
        text.put_number(t);
    }
}

// Puts R and the rules whose bits stand in the two words from `at` on.
fn put_reductions(words: &[u64], at: usize, text: &mut Text)
    requires { (at + 2 ≤ length words.now) × (text.old.end + 520 ≤ length text.old.bytes.now) }
    ensures { Adds text.old text.new (SPACE ∷ 82 ∷ listed (holds words.now at) reduction_of 0 128) }
{
    put_letter(text, b'R');
    for r in Bits::of(words, at, kernels::REDUCTION_WORDS) {
        text.put_spaced(r);
    }
}

// Puts A and the accept mark that a set's mark tells.
fn put_accept(text: &mut Text, mark: u8)
    requires { text.old.end + 4 ≤ length text.old.bytes.now }
    ensures { Adds text.old text.new (accept_text (eqb mark 3)) }
{
    put_letter(text, b'A');
    put_letter(text, accept_digit(mark));
}

// "`A` 1 or 0"
fn accept_digit(mark: u8) -> u8
    ensures { result ≡ digit (when (eqb mark 3) 1 0) }
{
    if mark == ACCEPTING { b'1' } else { b'0' }
}
