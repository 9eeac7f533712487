// Works: networks under simplification, and the calls that simplify them and hand them out.
//
// Holds the struct `Work`, `Work::start`, which makes one of an intake and a store, the three passes, `simplify` and `finalize`, and
// questions, which change nothing. Promises: each call answers and leaves what the rules say, refusals included, and asks nothing of
// its caller; whatever calls came before, the words handed out admit exactly the settings of the frozen nodes that the image taken in
// admits, and name no node that was taken out. A work has no way to freeze a node. Rests on `intake` (the image and the frozen nodes),
// `simplifier` (the network), `store` (its clauses), `clause` (known values), `image` (faults), and `rules` (the calls and the theorem).
#![tactic(auto)]

mod calls;
pub mod compare;
mod questions;
mod start;
pub mod state;
