// The nodes that wait in bounded variable elimination, and the count of each literal.
//
// Holds the struct `Waiting`: the counts of a store, kept as clauses go and come, and a queue of the nodes by both their counts.
// Promises: the next node is the one with the fewest uses, of those the lowest; each count is one less or more for each clause that
// is told. No call has a premise. Rests on `queue`, `store` (the traits) and `rules` (the next node in words).
#![tactic(auto)]

mod begin;
mod counts;
mod next;
mod waiting;

pub use begin::WORDS;
pub use waiting::Waiting;
