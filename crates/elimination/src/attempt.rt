// The attempts at nodes.
ghost use Rattle.std.specs.Prelude.{◌≡◌, ℕ, ◌≤◌, ◌||◌, List, []};
ghost use Rattle.elimination.specs.Outs.{flag, with_node, Made};
ghost use Rattle.elimination.specs.Words.{Roomy};
ghost use Rattle.network.specs.Clauses.{has};
ghost use Rattle.rules.specs.Bve.{attempt};
ghost use Rattle.rules.specs.Index.{Indexed};
ghost use Rattle.simplifier.specs.Shown.{work_of};
ghost use Rattle.waiting.specs.Waits.{Begins, Counting, SameWait};

use lemmas::Lemmas;
use removing::{settle, take_out};
use resolving::{attempted_cost, lemmas_of};
use simplifier::state::Simplifier;
use store::store::Store;
use waiting::Waiting;

// Takes a node out and puts its resolvents in its place, unless it is passed over or that is given up. The answer is whether it was
// taken out.
fn attempt<S: Store>(
    s: &mut Simplifier<S>,
    waiting: &mut Waiting<'_>,
    words: &mut Lemmas<'_>,
    node: u32,
) -> bool
    requires small { node ≤ s.now.top }
    requires indexed { Indexed (S.meaning s.now.store) }
    requires roomy { Roomy (S.meaning s.now.store).room words.now }
    ensures makes { (out : List ℕ) → work_of S.meaning s.new (with_node result node out) ≡ attempt node (work_of S.meaning s.old out) }
    ensures flags { (k : ℕ) → flag s.new.taken_out k ≡ (has k (with_node result node []) || flag s.old.taken_out k) }
    ensures top { s.new.top ≡ s.old.top }
    ensures index { Indexed (S.meaning s.new.store) }
    ensures waits { SameWait waiting.old waiting.new }
    ensures counts { (top : ℕ) → Counting (S.meaning s.old.store) top waiting.old → Counting (S.meaning s.new.store) top waiting.new }
    ensures lent { Roomy (S.meaning s.new.store).room words.new }
{
    let Some(cost) = attempted_cost(&s.store, node, s.frozen[node as usize]) else {
        return false;
    };
    let Some(count) = lemmas_of(&s.store, node, cost, words) else {
        return false;
    };
    let Some(debt) = take_out(s, waiting, node) else {
        return false;
    };
    settle(debt, s, waiting, words, count);
    true
}

// Attempts each node that waits, once. The answer is how many nodes were taken out.
pub(crate) fn attempt_all<S: Store>(
    s: &mut Simplifier<S>,
    waiting: &mut Waiting<'_>,
    words: &mut Lemmas<'_>,
) -> u32
    requires indexed { Indexed (S.meaning s.now.store) }
    requires begins { Begins (S.meaning s.now.store) s.now.top waiting.now }
    requires roomy { Roomy (S.meaning s.now.store).room words.now }
    ensures { Made S.meaning result s.old s.new }
{
    let mut count = 0;
    for _k in 0..s.top + 1 {
        let Some(node) = waiting.next() else {
            return count;
        };
        count += attempt(s, waiting, words, node) as u32;
    }
    count
}
