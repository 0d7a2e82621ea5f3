// The work area of a derivation, and the spans of the links in it.
#![tactic(auto)]

mod area; // area.rt: the area, and its numbers one at a time
mod finding; // finding.rt: the place of a span
mod gathering; // gathering.rt: the spans of the links
mod insertion; // insertion.rt: a key put among the others
mod firsts; // firsts.rt: where each end begins
mod symbols_of; // symbols_of.rt: the symbol that each set is reached by

pub use area::{
    Area, BESIDE, CHOICES, COSTS, FIRSTS, SPANS, cost, end, end_of, first, number, rule, set_kept,
    start, symbol,
};
