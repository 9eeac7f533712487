// What takes the place of a node that is taken out: the resolvents upon it.
//
// Holds what a node costs, the collection of its resolvents in lent words, their simplification among themselves, and the clauses that
// this leaves; over any store. Promises: the cost is that of the rules, and a node is passed over where they say so; what is collected are
// all resolvents of the node in the rules' order, and what is left are the lemmas of these; the answer is none exactly where a resolvent
// is longer than 32 literals, where they are more than the caller admits, or where the words do not suffice, and then the same words are
// still lent. The store is only read. No public function requires anything.
//
// Rests on `clause` for one resolvent, on `lemmas` for the words and the simplification, on `store` for the lists, and on `rules` for
// what all this means.
#![tactic(auto)]

mod collection;
mod costs;
mod resolvents;

pub use collection::{clause_left, collect, lemmas_of};
pub use costs::{attempted_cost, cost};
