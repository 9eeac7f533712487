// The pass bve_simplify: bounded variable elimination as a whole.
//
// Holds the pass and its steps: the attempt at a node, the attempts at all nodes that wait, and the working words in parts. Promises: the
// pass makes of the work exactly what the rules make of it (`bve_answer` of `rules`), over any store; it answers how many nodes were taken
// out, and their flags stand. It requires nothing.
//
// Rests on `removing` (how a node is taken out), `resolving` (its resolvents), `waiting` (the next node), `lemmas` and `queue` (the words),
// `simplifier` (the work and the tests), `store` (the traits), `clause` and `network` (clauses), `image` and `intake` (faults) and `rules`
// (the pass).
#![tactic(auto)]

mod attempt;
mod pass;

pub use pass::bve_simplify;
