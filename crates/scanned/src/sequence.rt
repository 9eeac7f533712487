ghost use Rattle.std.specs.Prelude.{◌≡◌, ℕ, ◌+◌, ◌*◌, ◌-◌, ◌≤◌, ◌&&◌, [], false, true, length, map, if◌then◌else◌, MatchOption, nat_le};
ghost use Rattle.rings.specs.Left.{slots_left};
ghost use Rattle.scanned.specs.Firsts.{first_of};
ghost use Rattle.owned.specs.Lists.{listed};
ghost use Rattle.scanned.specs.Sequence.{in_range, listed_at, nodes_behind, sequence, slot_of};

use crate::searched::Searched;
use owned::owned::Owned;
use rings::{Slots, ring, scatter};

// The node of the first slot is 1, and its number is that of the own lists.
pub(crate) const BEFORE: u32 = 2049;

impl<'a> Searched<'a> {
    // An index that no slot has joined. Without words enough for the room, it has none.
    pub fn new(words: &'a mut [u32], room: u32) -> Self
        ensures room { result.room ≡ (if nat_le room 4096 && nat_le (2 * (room + 1)) (length words.old) then room else 0) }
        ensures none { sequence result.room result.words.now ≡ [] }
    {
        let room = if room > 0 && room <= 4096 && words.len() >= 2 * (room as usize + 1) {
            scatter(words, room + 1);
            room
        } else {
            0
        };
        Searched { words, room }
    }

    // The node of slot x, if it is one of the slots.
    pub(crate) fn node(&self, x: u32) -> Option<u32>
        ensures { MatchOption result (in_range self.now.room x ≡ false) (λ n. (in_range self.now.room x ≡ true) × (n ≡ x - 2049)) }
    {
        if x > BEFORE && x - BEFORE <= self.room {
            Some(x - BEFORE)
        } else {
            None
        }
    }

    // The nodes behind node n.
    pub(crate) fn behind(&self, n: u32) -> Slots<'_>
        ensures { slots_left result ≡ nodes_behind self.now.room self.now.words.now n }
    {
        let nodes = if self.room > 0 { self.room + 1 } else { 0 };
        ring(self.words, 1, nodes, n)
    }

    // The first slot behind node n that is listed at k.
    pub(crate) fn search(&self, own: &Owned<'_>, n: u32, k: u32) -> Option<u32>
        requires { n ≤ self.now.room }
        ensures { result ≡ first_of (listed_at (listed own.now) k (map slot_of (nodes_behind self.now.room self.now.words.now n))) }
    {
        for m in self.behind(n) {
            let x = m + BEFORE;
            if own.lists(x, k) {
                return Some(x);
            }
        }
        None
    }
}
