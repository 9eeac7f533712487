// What one clause makes of another.
ghost use Rattle.network.specs.Clauses.{last};
ghost use Rattle.rules.specs.Subsume.{verdict};
ghost use Rattle.std.specs.Prelude.{◌≡◌};
ghost use Rattle.subsumption_pass.specs.Verdicts.{told};

use clause::{Lit, ordered_subsume_execpt_one};

// What a clause makes of another.
#[derive(Clone, Copy)]
pub(crate) enum Verdict {
    // Nothing.
    Apart,
    // The other goes, as each literal of the one stands in it.
    Subsumed,
    // The two become one: the one loses the literal, and the other goes.
    Merged(Lit),
    // Both go: without the literal at which they differ, neither names its owner.
    BothLost,
    // The other goes: the literal that it could lose is its owner's.
    LongLost,
    // The other loses the literal.
    Strengthened(Lit),
}

// The last literal of a clause; literal 0 where there is none.
pub(crate) fn last_of(clause: &[u32]) -> Lit
    ensures { result.word ≡ last clause.now }
{
    match clause {
        [.., last] => Lit::from(*last),
        [] => Lit { word: 0 },
    }
}

// What the first clause makes of the second.
pub(crate) fn judge(one: &[u32], other: &[u32]) -> Verdict
    ensures { told result ≡ verdict one.now other.now }
{
    match ordered_subsume_execpt_one(one, other) {
        (true, _) => Verdict::Subsumed,
        (false, None) => Verdict::Apart,
        (false, Some(odd)) => {
            if one.len() == other.len() {
                if odd.var() == last_of(one).var() {
                    Verdict::BothLost
                } else {
                    Verdict::Merged(odd)
                }
            } else if odd.var() == last_of(other).var() {
                Verdict::LongLost
            } else {
                Verdict::Strengthened(odd.opposite())
            }
        }
    }
}
