ghost use Rattle.std.specs.Prelude.{◌≡◌, ◌∷◌, [], ℕ, ◌≤◌, List, length, take};
ghost use Rattle.rules.specs.Const.{judged};
ghost use Rattle.rules.specs.Store.{clause_at};
ghost use Rattle.simplifier.specs.Marks.{marked};
ghost use Rattle.simplifier.specs.Shown.{work_of};

use crate::fates::{Fate, fate_of};
use simplifier::state::Simplifier;
use store::lists::Lists;

// Judges a clause under the known values: whether it goes. A shorter form is entered beside it. Handles keep their places.
pub fn judge<S: Lists>(s: &mut Simplifier<S>, h: S::Handle) -> bool
    ensures makes { (l i : ℕ) → S.at s.old.store h l i → (out : List ℕ) → judged (clause_at (S.meaning s.old.store) l i ∷ []) (work_of S.meaning s.old out) ≡ (result ∷ [], work_of S.meaning s.new out) }
    ensures kept { s.new.taken_out ≡ s.old.taken_out }
    ensures stand { (k : S.Handle) (l i : ℕ) → S.at s.old.store k l i → S.at s.new.store k l i }
{
    let mut left = [0; 32];
    match fate_of(s.store.clause(h), &s.values, &mut left) {
        Fate::Goes => true,
        Fate::Shrinks(n) => {
            s.add(&left[..n]);
            false
        }
        Fate::Stays => false,
    }
}

// Judges the first clauses of the own list of l, as many as there are marks, in turn, and marks with 1 those that go.
pub(crate) fn judge_first<S: Lists>(s: &mut Simplifier<S>, l: u32, marks: &mut [u32])
    requires { length marks.now ≤ length ((S.meaning s.now.store).own l) }
    ensures makes { (out : List ℕ) → judged (take (length marks.old) ((S.meaning s.old.store).own l)) (work_of S.meaning s.old out) ≡ (marked marks.new, work_of S.meaning s.new out) }
    ensures kept { s.new.taken_out ≡ s.old.taken_out }
{
    let mut at = s.store.first(l);
    for mark in marks.iter_mut() {
        let Some(h) = at else {
            return;
        };
        *mark = judge(s, h) as u32;
        at = s.store.next(h);
    }
}
