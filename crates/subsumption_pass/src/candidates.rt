// A clause against the candidates around a literal.
ghost use Rattle.rules.specs.Store.{Meaning, count};
ghost use Rattle.rules.specs.Subsume.{around as all_around, refs_of};
ghost use Rattle.std.specs.Prelude.{◌≡◌, ℕ, ◌+◌, ◌<◌, [], drop, OnOk};
ghost use Rattle.subsumption_pass.specs.Checks.{Stands, IsLive, Surrounds};
ghost use Rattle.subsumption_pass.specs.Candidates.{Goes};

use crate::meetings::{Met, meet};
use clause::Lit;
use store::store::Store;

// A check ends where its clause is lost. The next clause, if there is one, stands at its place.
#[derive(Clone, Copy)]
pub(crate) struct Lost<H> {
    pub(crate) next: Option<H>,
}

// A clause against the clause of a use, if that is live.
fn against_use<S: Store>(
    s: &mut S,
    around: &mut [u32],
    one: S::Handle,
    usage: S::Use,
) -> Result<(), Lost<S::Handle>>
    requires live { IsLive (S.at s.old) (S.meaning s.old) one }
    requires usage { (x : ℕ) × ((n : ℕ) × (S.usage s.old usage x n × (n < count (S.meaning s.old) x))) }
    requires around { Surrounds (S.meaning s.old) around.old }
    ensures goes { (x n l i : ℕ) → S.usage s.old usage x n → n < count (S.meaning s.old) x → Stands (S.at s.old) (S.meaning s.old) one l i → Goes (S.at s.new) one l i (λ (M : Meaning). drop n (M.uses x)) (λ (M : Meaning). drop (n + 1) (M.uses x)) (S.meaning s.old) (S.meaning s.new) result }
    ensures keeps { (u : S.Use) (k j : ℕ) → S.usage s.old u k j → S.usage s.new u k j }
    ensures counts { OnOk result ((x : ℕ) → count (S.meaning s.new) x ≡ count (S.meaning s.old) x) }
    ensures around { Surrounds (S.meaning s.new) around.new }
{
    let Some(other) = s.user(usage) else {
        return Ok(());
    };
    match meet(s, around, one, other) {
        Met::Lost(next) => Err(Lost { next }),
        Met::Stays | Met::Gone(_) => Ok(()),
    }
}

// A clause against the uses of x, as they were indexed: uses keep their places, and that of a clause that is retired names none.
fn against_uses<S: Store>(
    s: &mut S,
    around: &mut [u32],
    one: S::Handle,
    x: u32,
) -> Result<(), Lost<S::Handle>>
    requires live { IsLive (S.at s.old) (S.meaning s.old) one }
    requires around { Surrounds (S.meaning s.old) around.old }
    ensures goes { (l i : ℕ) → Stands (S.at s.old) (S.meaning s.old) one l i → Goes (S.at s.new) one l i (λ (M : Meaning). M.uses x) (λ M. []) (S.meaning s.old) (S.meaning s.new) result }
    ensures around { Surrounds (S.meaning s.new) around.new }
{
    let mut at = s.first_use(x);
    let mut place = 0u32;
    // No `for`, since a use is tied to its place by a relation; the place shows that the loop ends.
    while let Some(usage) = at {
        against_use(s, around, one, usage)?;
        at = s.next_use(x, usage);
        place += 1;
    }
    Ok(())
}

// A clause against the own clauses of x: those that are left, since the order is kept and none is entered.
fn against_own<S: Store>(
    s: &mut S,
    around: &mut [u32],
    one: S::Handle,
    x: u32,
) -> Result<(), Lost<S::Handle>>
    requires live { IsLive (S.at s.old) (S.meaning s.old) one }
    requires around { Surrounds (S.meaning s.old) around.old }
    ensures goes { (l i : ℕ) → Stands (S.at s.old) (S.meaning s.old) one l i → Goes (S.at s.new) one l i (λ (M : Meaning). refs_of M x) (λ M. []) (S.meaning s.old) (S.meaning s.new) result }
    ensures around { Surrounds (S.meaning s.new) around.new }
{
    let mut at = s.first(x);
    let mut place = 0u32;
    // As with uses: the place shows that the loop ends.
    while let Some(other) = at {
        match meet(s, around, one, other) {
            Met::Stays => {
                at = s.next(other);
                place += 1;
            }
            Met::Gone(next) => at = next,
            Met::Lost(next) => return Err(Lost { next }),
        }
    }
    Ok(())
}

// A clause against all that stand around x: the uses and the own clauses of x and of its opposite.
pub(crate) fn against_all<S: Store>(
    s: &mut S,
    around: &mut [u32],
    one: S::Handle,
    x: Lit,
) -> Result<(), Lost<S::Handle>>
    requires live { IsLive (S.at s.old) (S.meaning s.old) one }
    requires around { Surrounds (S.meaning s.old) around.old }
    ensures goes { (l i : ℕ) → Stands (S.at s.old) (S.meaning s.old) one l i → Goes (S.at s.new) one l i (λ (M : Meaning). all_around M x.word) (λ M. []) (S.meaning s.old) (S.meaning s.new) result }
    ensures around { Surrounds (S.meaning s.new) around.new }
{
    let opposite = x.opposite();
    against_uses(s, around, one, x.word)?;
    against_uses(s, around, one, opposite.word)?;
    against_own(s, around, one, x.word)?;
    against_own(s, around, one, opposite.word)
}
