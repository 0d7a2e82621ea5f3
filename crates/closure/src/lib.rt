// The closure of a kernel, and what an expansion reads off it (001, CLOSURE and EXPAND).
//
// A closure is a kernel with more items: the same 16 words, a bit for each item of 128 rules. `close` makes it of a kernel and
// the rules of a table; `symbols_after`, `moved` and `completed_items` say which symbols stand after its dots, which kernel each
// leads to, and which rules it reduces. Where these go in the table, and which of the kernels a set has already, is the business
// of the floor above: nothing here sees a set, and nothing is written but what is handed back.
//
// Kernels come in and go out by value. They are 128 bytes, so that a caller copies a set's words out once (`kernels::copy`) and
// then needs no other part of the table but the rules; and nothing that is lent can change between two of the questions.
//
// What it costs: `close` walks the items that are there once for each round, and passes over the rules once for each
// non-terminal that it meets, however many items stand before it. Items that are added ahead of the walk are met in the same
// round, so that rules which are numbered from START downwards take two rounds: one that adds, and one that finds nothing new.
// Each of the others is one walk. A walk goes from item to item by counting trailing zeros, and passes an empty word at once.
//
// The contracts ask that the rules be in form (`FormedRules`) and the kernel of these rules (`Within`: no bit beyond them), and
// cite the model's `closure`, `symbols`, `moved` and `filled` (theory/specs/Expansion.antt). What a closure under way has to do
// with 001's inductive one stands in specs/UnderWay.antt; for the floor above, proofs/Written.antt says what the words that come
// out of here still hold where they are written into a table.
#![tactic(auto)]

mod item; // item.rt: what an item says
mod rounds; // CLOSURE
mod walks; // what EXPAND asks of it

pub use rounds::close;
pub use walks::{Completed, completed_items, moved, symbols_after};
