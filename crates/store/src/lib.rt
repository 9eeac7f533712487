// Stores of clauses: what every store answers and does, in terms of what it means.
//
// Holds the trait `Lists` (own lists of clauses) and the trait `Store` upon it (uses too), whose contracts cite the meaning of a
// store and the effects of its changes from `rules`; the check of a store's room and words; and small functions over any store.
// Promises: the check refuses exactly as its definition says; a walk by handles finds each clause once. No method asks anything of
// a caller: what is said of a handle holds while it stands. Rests on `network` (clauses), `image` (faults) and `rules` (the meaning).
#![tactic(auto)]

pub mod check;
pub mod lists;
pub mod store;
pub mod walk;
