ghost use Rattle.std.specs.Prelude.{◌≡◌, ◌/◌, [], length, nat_le};
ghost use Rattle.image.specs.Faults.{fault, tested};
ghost use Rattle.rules.specs.Calls.{need};
ghost use Rattle.rules.specs.Store.{live_clauses};
ghost use Rattle.simplifier.specs.Shown.{work_of};

use crate::state::Simplifier;
use image::fault::{Fault, Refusal};
use store::lists::Lists;

impl<S: Lists> Simplifier<S> {
    // Refuses with 10, at the number that it needs, a pass that is lent too few working words.
    pub fn check_lent(&self, words: &[u32]) -> Result<(), Fault>
        ensures { result ≡ tested (nat_le (need (work_of S.meaning self.now [])) (length words.now)) (fault 10 (need (work_of S.meaning self.now []))) }
    {
        let need = 64 * self.store.room() + 8192;
        if words.len() < need as usize {
            return Err(Refusal::Short.at(need));
        }
        Ok(())
    }

    // Refuses with 13, at the number of live clauses, where more than half of the room is live.
    pub fn check_half(&self) -> Result<(), Fault>
        ensures { result ≡ tested (nat_le (live_clauses (S.meaning self.now.store)) ((S.meaning self.now.store).room / 2)) (fault 13 (live_clauses (S.meaning self.now.store))) }
    {
        let live = self.store.live();
        if live > self.store.room() / 2 {
            return Err(Refusal::Half.at(live));
        }
        Ok(())
    }
}
