// The script: command lines read.
//
// A line is read by a `Cursor`, a place in it. A step takes the cursor and the line, and hands back what it read with the
// cursor moved on, or says that nothing of the kind stands there: `letter`, `number`, `line_end`. On them stands `read`, which
// takes a line with its newline, or the last one without, any bytes and any number of them, to the `Command` that it asks for, or to None.
// A command's symbols come as bytes in a buffer that the caller lends, 256 at least; the rest of the buffer stays as it was.
//
// `read` looks at each byte of the line at most twice, and stops at the first that is wrong, or at the 257th number. So a
// program may cut a line off after 1,283 bytes: it is malformed all the same (`long_malformed`).
//
// What a line means is defined on the written line and not on how it is read: specs/Written.antt has how lines are written,
// specs/Command.antt what they mean. A line has one meaning (`means-one`, proofs/Meaning.antt), and one command and one buffer tell
// it (`reads-one`, proofs/OneReading.antt).
#![tactic(auto)]

mod command; // command.rt: a line to its command
mod cursor; // cursor.rt: letter, number and line end
mod numbers; // numbers.rt: the numbers of a line

pub use command::{Command, read};
pub use cursor::Cursor;
