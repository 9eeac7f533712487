// The check of each clause of an own list.
ghost use Rattle.network.specs.Assignments.{node};
ghost use Rattle.network.specs.Lists.{In};
ghost use Rattle.rules.specs.Store.{Meaning};
ghost use Rattle.rules.specs.Subsume.{best, walk};
ghost use Rattle.std.specs.Prelude.{◌≡◌, ℕ, ◌<◌, length};
ghost use Rattle.subsumption_pass.specs.Candidates.{Checked};
ghost use Rattle.subsumption_pass.specs.Checks.{Stands, IsLive, Surrounds};

use crate::candidates::against_all;
use clause::Lit;
use store::store::Store;

// The literal of a clause that has the fewest clauses around its node, the first of such; literal 0 where there is none.
fn best_of(clause: &[u32], around: &[u32]) -> Lit
    requires { (x : ℕ) → In x clause.now → node x < length around.now }
    ensures { (M : Meaning) → Surrounds M around.now → ((x : ℕ) → In x clause.now → x < 2048) → result.word ≡ best M clause.now }
{
    let [first, rest @ ..] = clause else {
        return Lit { word: 0 };
    };
    let mut best = Lit::from(*first);
    for word in rest {
        let x = Lit::from(*word);
        if around[x.var().number as usize] < around[best.var().number as usize] {
            best = x;
        }
    }
    best
}

// The handle's clause against its candidates: the clause of its own list to look at next, if there is one.
fn check<S: Store>(s: &mut S, around: &mut [u32], one: S::Handle) -> Option<S::Handle>
    requires live { IsLive (S.at s.old) (S.meaning s.old) one }
    requires around { Surrounds (S.meaning s.old) around.old }
    ensures checks { (l i : ℕ) → Stands (S.at s.old) (S.meaning s.old) one l i → Checked (S.at s.new) l i (S.meaning s.old) (S.meaning s.new) result }
    ensures around { Surrounds (S.meaning s.new) around.new }
{
    let best = best_of(s.clause(one), around);
    match against_all(s, around, one, best) {
        Ok(()) => s.next(one),
        Err(lost) => lost.next,
    }
}

// Each clause of the own list of l, by place.
pub(crate) fn walk_own<S: Store>(s: &mut S, around: &mut [u32], l: u32)
    requires around { Surrounds (S.meaning s.old) around.old }
    ensures walks { S.meaning s.new ≡ walk l (S.meaning s.old) }
    ensures around { Surrounds (S.meaning s.new) around.new }
{
    let mut at = s.first(l);
    // No clause is entered, so there are no more to look at than the list has now.
    for _k in 0..s.own_len(l) {
        let Some(one) = at else {
            break;
        };
        at = check(s, around, one);
    }
}
