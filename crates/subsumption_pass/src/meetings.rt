// One clause meets another.
ghost use Rattle.rules.specs.Store.{retired};
ghost use Rattle.rules.specs.Subsume.{place_after};
ghost use Rattle.std.specs.Prelude.{◌≡◌, ℕ, ◌<◌};
ghost use Rattle.subsumption_pass.specs.Checks.{Stands, IsLive, Next, Surrounds, Meets};

use crate::verdicts::{Verdict, judge, last_of};
use store::store::Store;

// What the meeting of one clause with another came to. A clause that is lost leaves its place to the next, if there is one.
#[derive(Clone, Copy)]
pub(crate) enum Met<H> {
    // Both stay, the other maybe a literal shorter.
    Stays,
    // The other is lost, and the next stands at its place.
    Gone(Option<H>),
    // Both are lost, and the next stands at the place of the one.
    Lost(Option<H>),
}

// Retires the handle's clause: the next clause, which stands at the place now. There is one clause less around its node.
fn retire<S: Store>(s: &mut S, around: &mut [u32], h: S::Handle) -> Option<S::Handle>
    requires live { IsLive (S.at s.old) (S.meaning s.old) h }
    requires around { Surrounds (S.meaning s.old) around.old }
    ensures makes { (l i : ℕ) → Stands (S.at s.old) (S.meaning s.old) h l i → S.meaning s.new ≡ retired l i (S.meaning s.old) }
    ensures next { (l i : ℕ) → Stands (S.at s.old) (S.meaning s.old) h l i → Next (S.at s.new) (S.meaning s.new) result l i }
    ensures follow { (l i : ℕ) → Stands (S.at s.old) (S.meaning s.old) h l i → (k : S.Handle) (m j : ℕ) → S.at s.old k m j → ((m ≡ l) × (j ≡ i) → ⊥) → S.at s.new k m (place_after l i m j) }
    ensures keeps { (u : S.Use) (k j : ℕ) → S.usage s.old u k j → S.usage s.new u k j }
    ensures around { Surrounds (S.meaning s.new) around.new }
{
    let owner = last_of(s.clause(h)).var();
    around[owner.number as usize] -= 1;
    s.retire_at(h)?
}

// The verdict of one clause on another, and the changes that it asks for. A clause leaves itself alone.
pub(crate) fn meet<S: Store>(
    s: &mut S,
    around: &mut [u32],
    one: S::Handle,
    other: S::Handle,
) -> Met<S::Handle>
    requires one { IsLive (S.at s.old) (S.meaning s.old) one }
    requires other { IsLive (S.at s.old) (S.meaning s.old) other }
    requires around { Surrounds (S.meaning s.old) around.old }
    ensures meets { (l i k j : ℕ) → Stands (S.at s.old) (S.meaning s.old) one l i → Stands (S.at s.old) (S.meaning s.old) other k j → Meets (S.at s.new) (S.meaning s.old) (S.meaning s.new) one other l i k j result }
    ensures keeps { (u : S.Use) (k j : ℕ) → S.usage s.old u k j → S.usage s.new u k j }
    ensures around { Surrounds (S.meaning s.new) around.new }
{
    if s.same(one, other) {
        return Met::Stays;
    }
    match judge(s.clause(one), s.clause(other)) {
        Verdict::Apart => Met::Stays,
        Verdict::Subsumed | Verdict::LongLost => Met::Gone(retire(s, around, other)),
        Verdict::Merged(odd) => {
            s.shorten_at(one, odd.word);
            Met::Gone(retire(s, around, other))
        }
        Verdict::BothLost => {
            retire(s, around, other);
            Met::Lost(retire(s, around, one))
        }
        Verdict::Strengthened(odd) => {
            s.shorten_at(other, odd.word);
            Met::Stays
        }
    }
}
