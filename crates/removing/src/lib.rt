// How bounded variable elimination takes a node out: each clause that names it goes, and the counts follow.
//
// Holds the step over any store (`take_out`), and the debt that it leaves (`Debt`), which only the entering of the node's resolvents
// can settle. Promises: the work is what the rules make of it, where an index stands as it was made; the counts stay those of the
// store. Rests on `simplifier` (the work), `store` (the traits), `waiting` (the counts) and `rules`.
#![tactic(auto)]

mod clear;
mod debt;
mod enter;

pub use debt::{Debt, settle, take_out};
