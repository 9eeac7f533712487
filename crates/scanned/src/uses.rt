ghost use Rattle.std.specs.Prelude.{◌≡◌, ℕ, [], length};
ghost use Rattle.scanned.specs.Sequence.{Sound, nodes_behind, sequence};

use crate::searched::Searched;
use crate::sequence::BEFORE;
use owned::owned::Owned;
use rings::{after, link, unlink};
use slotted::index::Index;

// A live clause of a scanned store, by its slot.
#[derive(Clone, Copy)]
pub struct ScannedHandle {
    slot: u32,
}

// A use in a scanned store, by the slot of its clause.
#[derive(Clone, Copy)]
pub struct ScannedUse {
    slot: u32,
}

// Takes every node out of the sequence.
fn cut_all(ws: &mut [u32], room: u32)
    requires { Sound room ws.old }
    ensures sound { Sound room ws.new }
    ensures none { sequence room ws.new ≡ [] }
{
    if room == 0 {
        return;
    }
    while let Some(n) = after(ws, 1, 0) {
        unlink(ws, n);
    }
}

impl Index for Searched<'_> {
    ghost use Rattle.scanned.specs.Sequence.{Stands, joined_in, used_in};
    ghost use Rattle.scanned.specs.Whole.{sensible, stays, within};

    type Handle = ScannedHandle;

    type Use = ScannedUse;

    const EACH: u16 = 48;

    const FIXED: u16 = 4096;

    ghost named = { λ h. h.slot };

    ghost slots = { λ s. s.room };

    ghost joined = { λ s. joined_in s.room s.words.now };

    ghost used = { λ s. used_in s.room s.words.now };

    ghost usage = { λ s L u k j. Stands s.room s.words.now L u.slot k j };

    fn room(&self) -> u32 {
        self.room
    }

    fn handle(x: u32) -> ScannedHandle
        ensures { result.slot ≡ x }
    {
        ScannedHandle { slot: x }
    }

    fn named(h: ScannedHandle) -> u32
        ensures { result ≡ h.slot }
    {
        h.slot
    }

    // A slot that has joined stays where it is.
    fn join(&mut self, x: u32, literals: &[u32]) {
        let Some(n) = self.node(x) else {
            return;
        };
        if !literals.is_empty() && self.words[2 * n as usize] == n {
            link(self.words, 0, n);
        }
    }

    fn leave(&mut self, x: u32) {
        if let Some(n) = self.node(x) {
            unlink(self.words, n);
        }
    }

    fn clear(&mut self) {
        cut_all(self.words, self.room);
    }

    fn count(&self, own: &Owned<'_>, k: u32) -> u32 {
        let mut n = 0;
        for m in self.behind(0) {
            if own.lists(m + BEFORE, k) {
                n += 1;
            }
        }
        n
    }

    fn first(&self, own: &Owned<'_>, k: u32) -> Option<ScannedUse> {
        let Some(slot) = self.search(own, 0, k) else {
            return None;
        };
        Some(ScannedUse { slot })
    }

    fn next(&self, own: &Owned<'_>, k: u32, u: ScannedUse) -> Option<ScannedUse> {
        let Some(n) = self.node(u.slot) else {
            return None;
        };
        let Some(slot) = self.search(own, n, k) else {
            return None;
        };
        Some(ScannedUse { slot })
    }

    fn slot(&self, u: ScannedUse) -> u32 {
        u.slot
    }

    ghost sensible = { sensible };

    ghost within = { within };

    ghost stays = { stays };
}
