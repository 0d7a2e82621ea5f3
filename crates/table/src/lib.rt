// A table in lent numbers: where each number stands, and how it is read and written.
//
// Three slices hold a table. A table of S sets and R rules needs
//
//   rules  2 + 10 R   its sizes S and R; then for each rule its state, its left symbol, its length and seven right places
//   cells  128 S      for each set its mark; then its target on each of the symbols 1 to 127, 0 for none
//   words  18 S       for each set the 16 words of its kernel; then 2 words with a bit for each rule that it reduces
//
// and leaves longer slices alone beyond that. The end mark has no target, so its place in a row of cells holds the mark, as
// 001's accept is the move on the end mark. Every stride is a fixed number: a place is a product and a sum, and no index
// into the slices is ever stored in them. What is not in use is zero.
//
// Each function here is one load or one store, but for a rule as a record, which is ten, zeros written in a row, and the start
// set's kernel, one look at each rule. None tests a place when it runs: its contract asks that the place be there, and the form
// test of the crate `form`, once a call, is what makes that sure. The kernels' words are read and written by `kernels`, from
// 18 s on.
//
// specs/Layout.antt is this layout once more, as definitions, with the table that lent numbers hold (`view`); specs/Laid.antt
// says when numbers are laid out (`Laid`) and hold a table in form (`Formed`); specs/Becomes.antt what a call promises of
// them. proofs/ has what a floor above needs to know of rules written (RuleNumbers), of rows written (Rows), of what the
// model reads (Read), of the start kernel (Starts), of one change after another (Becoming), and that no second list of numbers
// fits a promise (Once, OneOutcome).
#![tactic(auto)]

mod bytes; // bytes.rt: numbers made zero
mod cells; // cells.rt: marks and targets
mod rules; // rules.rt: sizes and rules
mod start; // start.rt: the start set's kernel

pub use bytes::clear;
pub use cells::{ACCEPTING, EXPANDED, ROW, UNEXPANDED, mark, target};
pub use rules::{
    CURRENT, FREE, LEFT, LENGTH, MOST_RULES, MOST_SETS, RIGHT, RULE, SIZES, WITHDRAWN, left, len,
    put_rule, rule, rules_in, sets_in, state,
};
pub use start::put_starts;
