// The listing: what `L` prints of a table.
//
// It is printed in pieces, each put at the end of a text: the contents line, and the body of one set. TEXT bytes are room enough for
// either, however full the table is, so a program with little room writes out each piece before the next. The longest body has
// 1,024 items of 6 bytes, 127 transitions of 8 and 128 reductions of 4.
//
// Cells and words are read where they lie, as `table` lays them out. The items of a kernel and the reductions are walked by
// `kernels::Bits`, so a body costs what it prints, 18 words and 127 cells; the contents line costs a cell for each set.
//
// Nothing here tests the form: whoever calls has done it ("Collect, Restart and the listing check 11 alone"). So the contracts say
// what is put by the cells and the words, whatever they are: specs/Walk.antt has the texts by the numbers, as the code walks them.
// What `L` prints of a table is in specs/Printed.antt, and proofs/Seen.antt proves the two the same where the numbers are laid out.
#![tactic(auto)]

mod contents_line; // contents_line.rt: the contents line
mod set_body; // set_body.rt: the body of one set

pub use contents_line::contents;
pub use set_body::body;

// Room for a piece of the listing.
pub const TEXT: usize = 8192;
