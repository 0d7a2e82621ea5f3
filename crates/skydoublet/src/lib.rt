// The library for programs in C and Rust: 01's calls under plain names, what a caller needs to read a table, and how long the
// slices have to be. The crate skydoublet_c exports them for C, embedding/skydoublet.h declares them, embedding/rust/ wraps them
// for Rust.
//
// A slice is lent as a pointer and a length. The caller owns every number: nothing is allocated, nothing is kept between calls,
// and two tables have nothing to do with each other. A call takes slices of any length with any numbers in them, as the calls
// below do; what C has to keep by itself is that a pointer and a length belong together, that slices lent to one call for
// writing don't overlap with another, and that words are aligned.
//
// An answer is its number in 01's table. Where a call answers a second number it writes that through its last reference, as C
// does. The reading calls look at one number, or walk on from one bit to the next; none of them tests the form, and each says
// what it answers where the place that is asked for isn't there.
//
// Nothing is decided here: every function hands its arguments to a floor below, and its contract is that floor's own.
#![tactic(auto)]

pub mod calls; // calls.rt: 01's calls
pub mod reading; // reading.rt: what a caller reads from a table
pub mod sizes; // sizes.rt: how long the slices have to be
