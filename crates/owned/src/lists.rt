ghost use Rattle.std.specs.Prelude.{◌≡◌, ℕ, ◌≤◌, List, length};
ghost use Rattle.owned.specs.Lists.{own};
ghost use Rattle.rings.specs.Left.{slots_left};

use crate::owned::Owned;
use crate::words::{HEADS, LITERALS};
use rings::{Slots, ring};

impl Owned<'_> {
    // The slots of the own list of l.
    pub fn own(&self, l: u32) -> Slots<'_>
        ensures { slots_left result ≡ own self.now l }
    {
        let nodes = if l < LITERALS && self.room > 0 {
            HEADS + self.room
        } else {
            0
        };
        ring(self.links, HEADS, nodes, l)
    }
}
