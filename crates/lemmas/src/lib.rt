// The simplification of a list of clauses among themselves.
//
// Holds nothing: the clauses, their lengths and the line of those that are left stand in words that the caller lends, named by the
// struct `Lemmas`. Promises: what is left is `lemmas` of the clauses by arrival, as the crate `network` defines it; the answer is none
// exactly where the words do not suffice or a clause is longer than 32 literals, and then nothing has changed; no word of another clause
// changes. No public function requires anything.
//
// Rests on `network` for the definition, on `clause` for the test of two clauses and the loss of a literal, and on `queue` for the order.
#![tactic(auto)]

mod simplify;
mod sort;
mod turns;
mod words;

pub use simplify::Lemmas;
pub use words::marks_spare;
