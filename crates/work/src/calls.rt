ghost use Rattle.handing_out.specs.Outcome.{counted};
ghost use Rattle.rules.specs.Calls.{bve_answer, const_answer, finalize_answer, simplify_answer, subsume_answer};
ghost use Rattle.rules.specs.Store.{live_clauses};
ghost use Rattle.std.specs.Prelude.{◌≡◌, ◌≤◌, ◌⊎◌, length, take, IfErr, IfOk, OnErr};
ghost use Rattle.work.specs.Promises.{AllGone, Faithful, Keeps, SmallTurns};
ghost use Rattle.work.specs.Shown.{Leads, OfEachShown, Writes};

use crate::state::Work;
use image::fault::Fault;
use store::store::Store;

impl<S: Store> Work<'_, S> {
    // Simplifies clauses by the known values. The answer is the number of live clauses. Refused with 10 where the working words are too
    // few, and else with 13 where more than half of the room is live; then nothing has changed.
    pub fn const_simplify(&mut self, words: &mut [u32]) -> Result<u32, Fault>
        ensures rules { Leads S.meaning (const_answer (length words.old)) self.old.simplifier self.new.simplifier result }
        ensures image { self.new.image ≡ self.old.image }
        ensures keeps { Keeps S.meaning self.old.simplifier self.new.simplifier }
        ensures refused { OnErr result ((self.new.simplifier ≡ self.old.simplifier) × (words.new ≡ words.old)) }
    {
        constants::const_simplify(&mut self.simplifier, words)
    }

    // Takes nodes out, each where its resolvents are no more than the clauses that go. The answer is how many, and the number of live
    // clauses. Refused with 10 where the working words are too few; then nothing has changed.
    pub fn bve_simplify(&mut self, words: &mut [u32]) -> Result<(u32, u32), Fault>
        ensures rules { Leads S.meaning (bve_answer (length words.old)) self.old.simplifier self.new.simplifier result }
        ensures image { self.new.image ≡ self.old.image }
        ensures keeps { Keeps S.meaning self.old.simplifier self.new.simplifier }
        ensures gone { AllGone S.meaning self.new.simplifier }
        ensures turns { OfEachShown S.meaning self.old.simplifier SmallTurns }
        ensures fewer { live_clauses (S.meaning self.new.simplifier.store) ≤ live_clauses (S.meaning self.old.simplifier.store) }
        ensures refused { OnErr result ((self.new.simplifier ≡ self.old.simplifier) × (words.new ≡ words.old)) }
    {
        elimination::bve_simplify(&mut self.simplifier, words)
    }

    // Drops clauses that others subsume, and strengthens clauses. The answer is the number of live clauses. Refused with 10 where the
    // working words are too few; then nothing has changed.
    pub fn subsume_simplify(&mut self, words: &mut [u32]) -> Result<u32, Fault>
        ensures rules { Leads S.meaning (subsume_answer (length words.old)) self.old.simplifier self.new.simplifier result }
        ensures image { self.new.image ≡ self.old.image }
        ensures keeps { Keeps S.meaning self.old.simplifier self.new.simplifier }
        ensures refused { OnErr result ((self.new.simplifier ≡ self.old.simplifier) × (words.new ≡ words.old)) }
    {
        subsumption_pass::subsume_simplify(&mut self.simplifier, words)
    }

    // Writes the image of the network to the front of `out`. The answer is how many words it has. Refused with 14 where `out` has fewer;
    // then it is as it was.
    pub fn finalize(&self, out: &mut [u32]) -> Result<u32, Fault>
        ensures answer { OfEachShown S.meaning self.now.simplifier (λ W. result ≡ counted (finalize_answer (length out.old) W)) }
        ensures words { Writes S.meaning (finalize_answer (length out.old)) self.now.simplifier out.old out.new }
        ensures faithful { IfOk result (λ n. Faithful S.meaning self.now.simplifier self.now.image.now (take n out.new)) }
        ensures refused { IfErr result (λ f. (f.number ≡ 14) × (out.new ≡ out.old)) }
    {
        handing_out::finalize(&self.simplifier, out)
    }

    // The three passes, and then `finalize`. Refused with 10 where the working words are too few, and else with 13 where more than half
    // of the room is live; then nothing has changed. Refused with 14 where `out` is too small; then the passes are done, and `out` is
    // as it was.
    pub fn simplify(&mut self, words: &mut [u32], out: &mut [u32]) -> Result<u32, Fault>
        ensures rules { Leads S.meaning (λ W. let A = simplify_answer (length words.old) (length out.old) W in (A.0, counted A.1)) self.old.simplifier self.new.simplifier result }
        ensures words { Writes S.meaning (λ W. (simplify_answer (length words.old) (length out.old) W).1) self.old.simplifier out.old out.new }
        ensures image { self.new.image ≡ self.old.image }
        ensures keeps { Keeps S.meaning self.old.simplifier self.new.simplifier }
        ensures gone { AllGone S.meaning self.new.simplifier }
        ensures turns { OfEachShown S.meaning self.old.simplifier (λ W. SmallTurns (const_answer (length words.old) W).0) }
        ensures faithful { IfOk result (λ n. Faithful S.meaning self.new.simplifier self.new.image.now (take n out.new)) }
        ensures refused { IfErr result (λ f. (out.new ≡ out.old) × ((f.number ≡ 14) ⊎ ((self.new.simplifier ≡ self.old.simplifier) × (words.new ≡ words.old)))) }
    {
        self.const_simplify(words)?;
        self.bve_simplify(words)?;
        self.subsume_simplify(words)?;
        self.finalize(out)
    }
}
