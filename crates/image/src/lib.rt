// Images: networks as runs of 32-bit words. What is wrong with one, and where, is a `Fault`.
//
// Holds the faults, the header of an image, the reader of a node's run, and the tests of its clauses: cut, order, owner, wide.
// Promises: each function answers exactly its definition in specs/, on any words at all; nothing wraps, and nothing is asked
// of a caller. Rests on `network`, and on the kit's `arrayvec` for a list of at most eight nodes.
#![tactic(auto)]

pub mod fault;
pub mod header;
pub mod lowers;
pub mod reader;
pub mod shape;
