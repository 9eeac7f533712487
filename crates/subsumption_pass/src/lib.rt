// The pass `subsume_simplify`: each live clause of a simplifier is checked against those around the literal that has the fewest.
//
// Holds the verdict of one clause on another, the meeting of two clauses with the changes that it asks for, the checks of a clause
// against its candidates and along own lists, and the pass. Promises: over any store, the work after the pass and its answer are
// `subsume_answer` of the work before it, as the crate `rules` defines it, whatever the store means that its laws allow; where it
// is refused nothing has changed. No public function requires anything.
//
// The working words count for each node the uses and the own clauses of its literals. They are written once, and a clause that is
// retired is taken off; so a store is not asked again for what it may have to search.
//
// Rests on `rules` for the definition, on `store` for the traits, on `clause` for the test of two clauses, and on `simplifier`.
#![tactic(auto)]

mod candidates;
mod checks;
mod meetings;
mod pass;
mod verdicts;

pub use pass::subsume_simplify;
