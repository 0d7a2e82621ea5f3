// The desk: one command line answered, over the pools that the program keeps.
//
// `answer` takes a line, with its newline if it has one, the numbers of the table and the link buffer, and puts the line's text
// into a lent output buffer. It goes three steps: `script::read` says which command the line is, `obey` makes the call and says
// what there is to print (a `Reply`), `replies::put` puts the reply's text. What a line means is `script`'s, what is printed
// `replies`', what a command does the calls' below.
//
// The desk starts without a table: all numbers zero, which is not in form, so its calls answer 11 until a good N. The sizes of
// the pools are here, for "at most 128, 128 and 1,024"; an N within that takes the part that it asks for. The output buffer
// needs `replies::ROOM` for the longest text, the listing of a full table: a megabyte, so that a line's text always is in one
// piece and the contract can say which it is.
//
// A line costs its call; P, G and R also a look at one byte of each set, and L what it prints.
//
// specs/Obeys.antt says what each command does and prints, and `Prints` there is what `answer` promises.
#![tactic(auto)]

mod calls; // calls.rt: each command's call, and its reply
mod obey; // obey.rt: a line to its command, its call and its text

pub use obey::{Answered, answer};

// The numbers that a table of 128 sets and 128 rules takes, and a link pool of 1,024.
pub const RULES: usize = table::SIZES + calls::MOST_RULES * table::RULE;

pub const CELLS: usize = calls::MOST_SETS * table::ROW;

pub const WORDS: usize = calls::MOST_SETS * kernels::SET_WORDS;

pub const LINKS: usize = (calls::MOST_LINKS + 1) * links::RECORD;
