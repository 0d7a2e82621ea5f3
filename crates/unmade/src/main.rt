// Tables that no call made, and tables that are out of form by one number: every call on each of them, a line for each.
//
// Each case is a table that the calls made (base.rt) with a few numbers written over, which stand in the file stdin beside src/.
// Every call is done on a copy of its own, and the line shows its answers: `F` is_formed, `N` New, `A` Add, `D` Delete, `G` Collect,
// `R` Restart, `P` Parse; Add and Delete with the rule number, Parse with the number of links. After each stands what the call left
// of the lent numbers:
//
//   =   every number is as it was
//   +   some are not, and the table is in form
//   -   some are not, and the table is out of form; then follows what Collect answers to that
//   !   a number beyond the pools was touched, or Parse left the link buffer wrong: no line may have it
//
// 01 lets a table in form that no call made be "worked on safely": these lines are that sentence tried out. Out of form, every call
// but New answers 11 and leaves everything. The file stdout, which the lines are held to, was made by the reference on the same
// numbers.
#![tactic(auto)]

use std::io;

mod base; // base.rt: the table that the cases start from, and the numbers written over it
mod calls; // calls.rt: the calls on a copy of a table
mod cases; // cases.rt: the cases, from the file stdin
mod tried; // tried.rt: every call on a table, and what it left

fn main(rt: HostRuntime) -> io::Result<()> {
    cases::all(&rt)
}
