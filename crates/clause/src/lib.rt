// Clauses as slices of words, one for each literal: the literal 2n says that node n is true, and 2n + 1 that it is false.
//
// Holds literals, nodes and known values, and the operations on clauses: simplification under known values, resolvents,
// subsumption, strengthening, the loss of a literal, and signatures with the two tests that spare a walk. Promises: each answer, and
// each word that is written, is what the definition of the crate `network` gives, on any slices; no public function requires anything.
// Rests on the definitions and laws of `network`, which say what the answers mean for clauses in order.
#![tactic(auto)]

mod literals;
mod resolvents;
mod signatures;
mod subsumption;
mod values;

pub use literals::{Lbool, Lit, Var};
pub use resolvents::ordered_resolvent;
pub use signatures::Signature;
pub use subsumption::{drop_literal, ordered_subsume, ordered_subsume_execpt_one};
pub use values::{ordered_simp, value_of};
