ghost use Rattle.std.specs.Prelude.{◌≡◌, ◌≤◌, ◌<◌, ℕ, List, length, Some};
ghost use Rattle.clause.specs.Types.{values_of};
ghost use Rattle.clause.specs.Written.{Writes};
ghost use Rattle.network.specs.Values.{simplified};
ghost use Rattle.rules.specs.Store.{enterable};
ghost use Rattle.rules.specs.Work.{add, add_simplified};
ghost use Rattle.simplifier.specs.Shown.{work_of};

use crate::state::Simplifier;
use clause::{Lbool, Lit, ordered_simp};
use store::lists::Lists;

impl<S: Lists> Simplifier<S> {
    // What the known values leave of a clause, written to the front of `out`; None where a literal is true, or the clause is too long.
    pub fn left_of(&self, clause: &[u32], out: &mut [u32; 32]) -> Option<usize>
        ensures { Writes (length clause.now) result (simplified (values_of self.now.values) clause.now) out.old out.new }
    {
        ordered_simp(clause, &self.values, out)
    }

    // Enters a clause as it stands; a single literal, once entered, tells its node's value. The answer is the store's. Handles keep their
    // places.
    pub fn enter_left(&mut self, clause: &[u32]) -> bool
        ensures when { result ≡ enterable (S.meaning self.old.store) clause.now }
        ensures makes { (out : List ℕ) → work_of S.meaning self.new out ≡ add_simplified (Some clause.now) (work_of S.meaning self.old out) }
        ensures kept { self.new.taken_out ≡ self.old.taken_out }
        ensures stand { (h : S.Handle) (l i : ℕ) → S.at self.old.store h l i → S.at self.new.store h l i }
    {
        if !self.store.enter(clause) {
            return false;
        }
        if clause.len() == 1 {
            let literal = Lit::from(clause[0]);
            self.values[literal.var().number as usize] = Lbool::from(literal.polarity());
        }
        true
    }

    // Enters a clause as it is under the known values, if it has at most 32 literals and none of them is true. Handles keep
    // their places.
    pub fn add(&mut self, clause: &[u32])
        ensures makes { length clause.now ≤ 32 → (out : List ℕ) → work_of S.meaning self.new out ≡ add clause.now (work_of S.meaning self.old out) }
        ensures long { 32 < length clause.now → self.new ≡ self.old }
        ensures kept { self.new.taken_out ≡ self.old.taken_out }
        ensures stand { (h : S.Handle) (l i : ℕ) → S.at self.old.store h l i → S.at self.new.store h l i }
    {
        let mut left = [0; 32];
        if let Some(n) = self.left_of(clause, &mut left) {
            self.enter_left(&left[..n]);
        }
    }
}
