// The resolvents that take a node's place, entered one by one.
ghost use Rattle.std.specs.Prelude.{◌≡◌, ℕ, ◌≤◌, true, false, List, [], ◌∷◌, length, MatchOption, Some};
ghost use Rattle.lemmas.specs.Lines.{clauses_of};
ghost use Rattle.lemmas.specs.Words.{lemma_at};
ghost use Rattle.removing.specs.Follows.{Follows};
ghost use Rattle.removing.specs.Owed.{stands, Settled};
ghost use Rattle.rules.specs.Work.{add_simplified};
ghost use Rattle.simplifier.specs.Shown.{work_of};

use lemmas::Lemmas;
use simplifier::state::Simplifier;
use store::store::Store;
use waiting::Waiting;

// The words that each clause has for its literals.
const WIDTH: usize = 32;

// The literals of a clause, if it has its words.
pub(crate) fn owed_clause<'w>(words: &'w Lemmas<'_>, number: u32) -> Option<&'w [u32]>
    ensures { MatchOption result (stands words.now number ≡ false) (λ c. (stands words.now number ≡ true) × (c.now ≡ lemma_at (clauses_of words.now) number)) }
{
    let len = *words.lengths.get(number as usize)? as usize;
    let from = WIDTH * number as usize;
    if len > WIDTH || from + WIDTH > words.literals.len() {
        return None;
    }
    Some(&words.literals[from..from + len])
}

// Enters a clause as it stands, and tells the counts if it was entered.
fn enter_told<S: Store>(s: &mut Simplifier<S>, waiting: &mut Waiting<'_>, clause: &[u32])
    ensures makes { (out : List ℕ) → work_of S.meaning s.new out ≡ add_simplified (Some clause.now) (work_of S.meaning s.old out) }
    ensures kept { s.new.taken_out ≡ s.old.taken_out }
    ensures follows { Follows (S.meaning s.old.store) (S.meaning s.new.store) waiting.old waiting.new }
{
    if s.enter_left(clause) {
        waiting.clause_comes(clause);
    }
}

// Enters a clause as it is under the known values, and tells the counts of what was entered.
pub(crate) fn enter_counted<S: Store>(
    s: &mut Simplifier<S>,
    waiting: &mut Waiting<'_>,
    clause: &[u32],
)
    requires { length clause.now ≤ 32 }
    ensures { Settled S.meaning (clause.now ∷ []) s.old s.new waiting.old waiting.new }
{
    let mut left = [0; 32];
    if let Some(n) = s.left_of(clause, &mut left) {
        enter_told(s, waiting, &left[..n]);
    }
}
