// The pass const_simplify: the clauses of each node under the known values, and no clause for a node with a value.
//
// Holds the pass and its steps: what becomes of a clause, of an own list, of a node. Promises: the pass makes of the work exactly what
// the rules make of it (`const_answer` of `rules`), over any store. Rests on `simplifier` (entry and removal of clauses), `clause`
// (known values), `store` (the traits), `image` (faults) and `rules` (the pass).
#![tactic(auto)]

mod fates;
mod judging;
mod pass;

pub use pass::const_simplify;
