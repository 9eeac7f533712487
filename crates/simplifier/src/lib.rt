// The simplifier: the network that is being simplified, over any store, and the steps that every pass is made of.
//
// Holds the struct `Simplifier`, what it is in the words of the rules (specs/Shown.antt), the entry and removal of clauses, and the
// tests that calls begin with.
// Promises: each step makes of the work exactly what the rules make of it. Rests on `clause` (known values), `store` (the traits)
// and `rules` (the work).
#![tactic(auto)]

pub mod clearing;
pub mod entering;
pub mod refusing;
pub mod state;
