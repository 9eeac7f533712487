// The indexed store: the uses of a literal are linked.
//
// Holds `Linked`, an index that keeps the uses of each literal in a ring of lent words, so that the first, the next and the removal of a
// use take constant time; the store `Indexed` over it, its making and the check of its room and words (120 * C + 16,384 words for C
// clauses). Promises: what the trait `Index` asks, so that the store answers and changes what the traits of `store` say; making it
// refuses nothing. Rests on `rings` (the uses), `owned` (own lists) and `slotted` (the store over any index).
#![tactic(auto)]

pub mod linked;
mod links;
pub mod making;
pub mod uses;
