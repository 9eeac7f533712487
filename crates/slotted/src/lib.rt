// A store of clauses in slots, over whatever finds the uses of a literal.
//
// Holds the trait `Index`, which says what an index of slots is, and the store `Slotted`, written once for every index: own lists
// (`owned`) and an index make all that the traits of `store` ask. Promises: those traits' contracts, whatever the index.
// Rests on `owned` (own lists), `slots` (the meaning by slots), `store` (the traits and the check) and `rules` (the meaning).
#![tactic(auto)]

mod fill;
pub mod index;
pub mod lists;
pub mod slotted;
pub mod uses;
