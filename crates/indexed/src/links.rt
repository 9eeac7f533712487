ghost use Rattle.std.specs.Prelude.{◌≡◌, ℕ, ◌+◌, ◌*◌, ◌-◌, ◌≤◌, ◌<◌, ◌&&◌, [], false, true, cond, length, if◌then◌else◌, MatchOption, nat_le, ◌==◌, Decides, EachIndex, slice_index};
ghost use Rattle.indexed.specs.Links.{Whole, first_node, in_range, node_count, nodes_of, slot_of, used_in};
ghost use Rattle.indexed.specs.Turns.{Fair, Joining, Leaving};
ghost use Rattle.rings.specs.Left.{slots_left};
ghost use Rattle.rings.specs.Rings.{next, ring as ring_of};
ghost use Rattle.rings.specs.Tidy.{Tidy};

use crate::linked::Linked;
use image::shape::{ClauseTest, InOrder};
use rings::{Slots, after, link, ring, scatter, unlink};

// How many literals there are: the heads below are those of their uses.
pub(crate) const LITERALS: u32 = 2048;

// How many nodes a slot has: a clause has at most so many literals before its last.
const EACH: u32 = 31;

// The number of the first slot.
const FIRST: u32 = 2050;

// How many nodes there are.
fn nodes(room: u32) -> u32
    requires { room ≤ 4096 }
    ensures { result ≡ 2048 + 31 * room }
{
    LITERALS + EACH * room
}

// Whether each literal is of a node up to 1,023.
fn are_low(literals: &[u32]) -> bool
    ensures { Decides result (EachIndex literals.now (λ i. slice_index literals.now i < 2048)) }
{
    literals.iter().all(|k| *k < LITERALS)
}

// Whether a slot can be listed at these literals.
pub(crate) fn is_fair(literals: &[u32]) -> bool
    ensures { Decides result (Fair literals.now) }
{
    literals.len() <= EACH as usize && InOrder.passes(literals) && are_low(literals)
}

// The slot of a node. A number below the nodes has none.
pub(crate) fn slot_of(n: u32) -> u32
    ensures { result ≡ slot_of n }
{
    n.saturating_sub(LITERALS) / EACH + FIRST
}

// Puts the first nodes of a slot that has not joined, from node n on, at the ends of the rings of these literals.
pub(crate) fn put_in_all(ws: &mut [u32], room: u32, x: u32, literals: &[u32])
    requires { (Whole room ws.old) × (room ≤ 4096) × (in_range room x ≡ true) × (Fair literals.now) × (next ws.old (first_node x) ≡ first_node x) }
    ensures { Joining room ws.old x literals.now (length literals.now) ws.new }
{
    let n = LITERALS + EACH * (x - FIRST);
    for (j, k) in literals.iter().enumerate() {
        link(ws, *k, n + j as u32);
    }
}

// Takes the nodes of a slot out of their rings. Those that are in rings are its first ones.
pub(crate) fn take_out_all(ws: &mut [u32], room: u32, x: u32)
    requires { (Whole room ws.old) × (room ≤ 4096) × (in_range room x ≡ true) }
    ensures { Leaving room ws.old x 31 ws.new }
{
    let n = LITERALS + EACH * (x - FIRST);
    for m in n..n + EACH {
        if ws[2 * m as usize] == m {
            return;
        }
        unlink(ws, m);
    }
}

// Takes every node out of the ring of k.
pub(crate) fn empty_ring(ws: &mut [u32], room: u32, k: u32)
    requires { (Tidy 2048 (node_count room) ws.old) × (k < 2048) }
    ensures tidy { Tidy 2048 (node_count room) ws.new }
    ensures none { (l : ℕ) → l < 2048 → ring_of 2048 (node_count room) ws.new l ≡ cond (l == k) [] (ring_of 2048 (node_count room) ws.old l) }
{
    while let Some(n) = after(ws, LITERALS, k) {
        unlink(ws, n);
    }
}

impl<'a> Linked<'a> {
    // An index that no slot has joined. Without words enough for the room, it has none.
    pub fn new(words: &'a mut [u32], room: u32) -> Self
        ensures room { result.room ≡ (if nat_le room 4096 && nat_le (2 * (2048 + 31 * room)) (length words.old) then room else 0) }
        ensures none { (k : ℕ) → used_in result.room result.words.now k ≡ [] }
    {
        let room = if room > 0 && room <= 4096 && words.len() >= 2 * nodes(room) as usize {
            scatter(words, nodes(room));
            room
        } else {
            0
        };
        Linked { words, room }
    }

    // The first node of slot x, if it is one of the slots.
    pub(crate) fn node(&self, x: u32) -> Option<u32>
        ensures { MatchOption result (in_range self.now.room x ≡ false) (λ n. (in_range self.now.room x ≡ true) × (n ≡ first_node x)) }
    {
        if x >= FIRST && x - FIRST < self.room {
            Some(LITERALS + EACH * (x - FIRST))
        } else {
            None
        }
    }

    // The nodes of the ring of k.
    pub(crate) fn nodes_of(&self, k: u32) -> Slots<'_>
        ensures { slots_left result ≡ nodes_of self.now.room self.now.words.now k }
    {
        let nodes = if k < LITERALS && self.room > 0 {
            nodes(self.room)
        } else {
            0
        };
        ring(self.words, LITERALS, nodes, k)
    }
}
