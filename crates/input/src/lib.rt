// The input of the programs: little-endian words, that are a count, that many nodes to freeze, and an image.
//
// Holds the way from bytes to an intake. Promises: any bytes give the intake that the definitions in specs/ say, or the one
// refusal that they say; a refusal leaves the intake as it was. Rests on `network`, `image` and `intake`.
#![tactic(auto)]

pub mod bytes;
pub mod opening;
