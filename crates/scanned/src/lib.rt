// The scanned store: the uses of a literal are found by search.
//
// Holds `Searched`, an index that keeps the slots that have joined in one ring of lent words, the sequence, and finds the uses of a
// literal along it; the store `Scanned` over it, its making and the check of its room and words (48 * C + 4,096 words for C clauses).
// Promises: what the trait `Index` asks, so that the store answers and changes what the traits of `store` say; making it refuses nothing.
// Rests on `rings` (the sequence), `owned` (own lists) and `slotted` (the store over any index).
#![tactic(auto)]

pub mod making;
pub mod searched;
mod sequence;
pub mod uses;
