// The queue, written once for every kind of entry.
//
// Each kind brings an order in which any two different entries stand strictly one before the other
// (`Order`), most simply by a key (`Keyed`). The queue hands out the first. It is a binary heap over lent words: one slice holds the
// entries that wait, another the place of each, so that an entry whose standing has changed is found
// and moved to its place.
//
// Promised: no call has a premise. A push or a build that is refused changes nothing, and it is said
// exactly when that is. A pop of a heap hands out the entry that stands before every other, and a heap
// stays one under each call. After an entry's standing has changed, `changed` makes a heap again.
//
// Rests on nothing but std.
#![tactic(auto)]

mod heap;
mod line;
mod order;
mod orders;
mod queue;
mod sift;

pub use heap::pops_sort;
pub use order::Order;
pub use orders::{Keyed, Resolvents, WaitingNodes, count_moves_one};
pub use queue::Queue;
