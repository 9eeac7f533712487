ghost use Rattle.rules.specs.Calls.{start};
ghost use Rattle.rules.specs.Store.{live_clauses};
ghost use Rattle.rules.specs.Theorem.{flags};
ghost use Rattle.std.specs.Prelude.{◌≡◌, ℕ, ◌≤◌, ◌/◌, false, IfOk, IsOk, MatchResult};
ghost use Rattle.work.specs.Shown.{Shows};

use crate::state::Work;
use image::fault::Fault;
use intake::state::Intake;
use starting::{begin, refusal};
use store::store::Store;

impl<'i, S: Store> Work<'i, S> {
    // The work of an intake over a store, which is emptied first. Refused with 11 where the clauses are more than half of the room, and
    // else with 12 at the lowest node that is loose and not frozen; intake and store are then given back as they came.
    pub fn start(intake: Intake<'i>, store: S) -> Result<Self, (Intake<'i>, S, Fault)>
        ensures answer { MatchResult (start intake.entry.image.now intake.entry.frozen (S.meaning store)) (λ W. IsOk result) (λ f. result ≡ Err (intake.entry, store, f)) }
        ensures work { IfOk result (λ w. IfOk (start intake.entry.image.now intake.entry.frozen (S.meaning store)) (λ W. Shows S.meaning w.simplifier W)) }
        ensures image { IfOk result (λ w. w.image ≡ intake.entry.image) }
        ensures frozen { IfOk result (λ w. (n : ℕ) → flags w.simplifier.frozen n ≡ flags intake.entry.frozen n) }
        ensures none_out { IfOk result (λ w. (v : ℕ) → flags w.simplifier.taken_out v ≡ false) }
        ensures half_free { IfOk result (λ w. live_clauses (S.meaning w.simplifier.store) ≤ (S.meaning w.simplifier.store).room / 2) }
    {
        if let Err(fault) = refusal(&intake, &store) {
            return Err((intake, store, fault));
        }
        let simplifier = begin(&intake, store);
        Ok(Work {
            image: intake.image(),
            simplifier,
        })
    }
}
