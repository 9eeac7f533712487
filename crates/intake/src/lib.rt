// The intake: an image that take-in has judged right, and the nodes that are frozen in it.
//
// Holds the search through a node's rows, the judgement of a whole image, `take_in`, `froze` and the search for loose nodes.
// Promises: `take_in` answers exactly the table of refusals, each number on its ground alone, on any words; a refusal leaves
// the intake as it was. An intake always holds a right image with node 0 frozen. Rests on `network` and `image`.
#![tactic(auto)]

mod check;
pub mod laws;
mod row;
mod search;
pub mod state;
pub mod taken;
mod whole;
