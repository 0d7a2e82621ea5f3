// What the desk prints for a command: a reply to its text.
//
// A `Reply` is what a call leaves to print. It is put at the end of a text where ROOM bytes are left: an answer line, or the whole
// listing of the table, contents line and bodies as `listing` puts them, one after the other. ROOM is a megabyte, for the listing of
// a full table; every other reply takes some 15 bytes.
//
// specs/Printed.antt has the line of each answer, specs/Reply.antt the text of each reply, and what its numbers must be to have room:
// of four digits at most.
#![tactic(auto)]

ghost use Rattle.std.specs.Prelude.{◌+◌, ◌≤◌, length};
ghost use Rattle.table.specs.Layout.{mem, view};
ghost use Rattle.text.specs.Puts.{Adds};
ghost use Rattle.replies.specs.Reply.{text_of, Printable};

use listed::put_listing;
use symbols::{Refusal, Verdict};
use text::Text;

mod answer; // answer.rt: the line of an answer
mod listed; // listed.rt: the whole listing

// What a command leaves to print: how New went, or a line that is malformed; what Add or Delete answered, the rule's number; what
// Parse answered, with the sets in use; how Collect or Restart went, with the sets in use; or the listing of the table.
#[derive(Clone, Copy)]
pub enum Reply {
    Alone(Result<(), Refusal>),
    Change(Result<usize, Refusal>),
    Parse(Result<Verdict, Refusal>, usize),
    Collect(Result<(), Refusal>, usize),
    Listing,
}

// Room for any reply: the pieces of the longest listing, its contents line and 128 bodies.
pub const ROOM: usize = 129 * listing::TEXT;

// Puts the text of a reply about the table in these slices.
pub fn put(reply: Reply, rules: &[u8], cells: &[u8], words: &[u64], text: &mut Text)
    requires printable { Printable (mem rules.now cells.now words.now) reply }
    requires cells_len_bound { (length cells.now ≤ 16384) × (text.old.end + 1056768 ≤ length text.old.bytes.now) }
    ensures { Adds text.old text.new (text_of (view (mem rules.now cells.now words.now)) reply) }
{
    match reply {
        Reply::Alone(done) => answer::put_done(done, text),
        Reply::Change(changed) => answer::put_change(changed, text),
        Reply::Parse(read, sets) => answer::put_parse(read, sets, text),
        Reply::Collect(done, sets) => answer::put_collect(done, sets, text),
        Reply::Listing => put_listing(rules, cells, words, text),
    }
}
