ghost use Rattle.std.specs.Prelude.{◌≡◌, ◌<◌};
ghost use Rattle.indexed.specs.Links.{Bare, Sound};

use crate::linked::Linked;
use crate::links::{LITERALS, empty_ring, is_fair, put_in_all, slot_of, take_out_all};
use owned::owned::Owned;
use rings::after;
use slotted::index::Index;

// A live clause of an indexed store, by its slot.
#[derive(Clone, Copy)]
pub struct IndexedHandle {
    slot: u32,
}

// A use in an indexed store, by its node.
#[derive(Clone, Copy)]
pub struct IndexedUse {
    node: u32,
}

// Takes every node out of its ring.
fn empty_rings(ws: &mut [u32], room: u32)
    requires { Sound room ws.old }
    ensures { 0 < room → Bare room ws.new }
{
    if room == 0 {
        return;
    }
    for k in 0..LITERALS {
        empty_ring(ws, room, k);
    }
}

impl Index for Linked<'_> {
    ghost use Rattle.indexed.specs.Laws.{sensible, stays, within};
    ghost use Rattle.indexed.specs.Links.{Stands, joined_in, used_in};

    type Handle = IndexedHandle;

    type Use = IndexedUse;

    const EACH: u16 = 120;

    const FIXED: u16 = 16384;

    ghost named = { λ h. h.slot };

    ghost slots = { λ s. s.room };

    ghost joined = { λ s. joined_in s.room s.words.now };

    ghost used = { λ s L. used_in s.room s.words.now };

    ghost usage = { λ s L u k j. Stands s.room s.words.now u.node k j };

    fn room(&self) -> u32 {
        self.room
    }

    fn handle(x: u32) -> IndexedHandle
        ensures { result.slot ≡ x }
    {
        IndexedHandle { slot: x }
    }

    fn named(h: IndexedHandle) -> u32
        ensures { result ≡ h.slot }
    {
        h.slot
    }

    // A slot that has joined stays where it is.
    fn join(&mut self, x: u32, literals: &[u32]) {
        let Some(n) = self.node(x) else {
            return;
        };
        if is_fair(literals) && self.words[2 * n as usize] == n {
            put_in_all(self.words, self.room, x, literals);
        }
    }

    fn leave(&mut self, x: u32) {
        if let Some(_) = self.node(x) {
            take_out_all(self.words, self.room, x);
        }
    }

    fn clear(&mut self) {
        empty_rings(self.words, self.room);
    }

    fn count(&self, _own: &Owned<'_>, k: u32) -> u32 {
        self.nodes_of(k).count() as u32
    }

    fn first(&self, _own: &Owned<'_>, k: u32) -> Option<IndexedUse> {
        let Some(node) = self.nodes_of(k).next() else {
            return None;
        };
        Some(IndexedUse { node })
    }

    fn next(&self, _own: &Owned<'_>, _k: u32, u: IndexedUse) -> Option<IndexedUse> {
        let Some(node) = after(self.words, LITERALS, u.node) else {
            return None;
        };
        Some(IndexedUse { node })
    }

    fn slot(&self, u: IndexedUse) -> u32 {
        slot_of(u.node)
    }

    ghost sensible = { sensible };

    ghost within = { within };

    ghost stays = { stays };
}
