// The step: a node is taken out, and its resolvents are owed.
ghost use Rattle.std.specs.Prelude.{◌≡◌, ℕ, ◌<◌, ◌≤◌, true, List, ◌∷◌, slice_set, MatchOption};
ghost use Rattle.removing.specs.Follows.{Follows};
ghost use Rattle.removing.specs.Outs.{named_out};
ghost use Rattle.removing.specs.Owed.{owed, Settled};
ghost use Rattle.rules.specs.Bve.{taken_out};
ghost use Rattle.rules.specs.Index.{Indexed};
ghost use Rattle.simplifier.specs.Shown.{work_of};

use crate::clear::{clear_named, clear_uses};
use crate::enter::{enter_counted, owed_clause};
use lemmas::Lemmas;
use simplifier::state::Simplifier;
use store::store::Store;
use waiting::Waiting;

// The resolvents of a node that was taken out are owed. Nothing drops a debt: only what enters the resolvents can end it.
pub struct Debt {
    node: u32,
}

// Takes a node out: every clause that names it goes, the counts are told of each, and the node is flagged. The answer is none, with
// nothing changed, where there is no such node.
pub fn take_out<S: Store>(
    s: &mut Simplifier<S>,
    waiting: &mut Waiting<'_>,
    node: u32,
) -> Option<Debt>
    ensures answer { MatchOption result ((s.old.top < node) × (s.new ≡ s.old) × (waiting.new ≡ waiting.old)) (λ d. (d.node ≡ node) × (node ≤ s.old.top)) }
    ensures makes { node ≤ s.old.top → (out : List ℕ) → work_of S.meaning s.new (node ∷ out) ≡ named_out node (work_of S.meaning s.old out) }
    ensures ruled { node ≤ s.old.top → Indexed (S.meaning s.old.store) → (out : List ℕ) → work_of S.meaning s.new (node ∷ out) ≡ taken_out node (work_of S.meaning s.old out) }
    ensures flags { node ≤ s.old.top → s.new.taken_out ≡ slice_set s.old.taken_out node true }
    ensures others { (s.new.top ≡ s.old.top) × (s.new.frozen ≡ s.old.frozen) × (s.new.values ≡ s.old.values) }
    ensures follows { Follows (S.meaning s.old.store) (S.meaning s.new.store) waiting.old waiting.new }
{
    if node > s.top {
        return None;
    }
    clear_uses(&mut s.store, waiting, node, s.top);
    clear_named(&mut s.store, waiting, 2 * node, node);
    clear_named(&mut s.store, waiting, 2 * node + 1, node);
    s.taken_out[node as usize] = true;
    Some(Debt { node })
}

// Enters what is left of the resolvents of a node that was taken out: the clauses that the first `count` numbers of the line name. The
// counts are told of each. This settles the debt.
pub fn settle<S: Store>(
    debt: Debt,
    s: &mut Simplifier<S>,
    waiting: &mut Waiting<'_>,
    words: &Lemmas<'_>,
    count: usize,
)
    ensures { Settled S.meaning (owed count words.now) s.old s.new waiting.old waiting.new }
{
    let Debt { node: _node } = debt;
    let line = &words.order[..count.min(words.order.len())];
    for number in line {
        if let Some(clause) = owed_clause(words, *number) {
            enter_counted(s, waiting, clause);
        }
    }
}
