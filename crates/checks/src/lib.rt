// What New, Add and Delete refuse beside the form: the checks that come before anything is changed.
//
// Each only reads. `fits` is New's: the sizes, and the lengths of the slices lent for them. `check_add` and `check_delete` look at the
// rule's numbers first, then go over the rules of a table in form, an Add four times at most; what passes comes with the rule and the
// number that it takes or has. Where an Add finds no number, `lowest_free` finds one after a collection.
//
// Each contract says what the model's call does on every table with these rules, whatever its sets (specs/Found.antt).
#![tactic(auto)]

mod find; // find.rt: the searches over the rules, for Add and Delete
mod pool; // pool.rt: the sizes, for New

pub use find::{check_add, check_delete, lowest_free};
pub use pool::fits;
