// The C library: what target/staticlib/libskydoublet.a exports. A crate is built as a library or as a static library, not as both,
// and other crates rest on libraries alone; so the crate skydoublet has the functions, and each one here hands its arguments to the
// one there by the same name, and states its contract again.
//
// embedding/skydoublet.h declares these functions and says what a caller in C has to keep.
#![tactic(auto)]

mod calls; // calls.rt: 01's calls
mod reading; // reading.rt: what a caller reads from a table
mod sizes; // sizes.rt: how long the slices have to be
