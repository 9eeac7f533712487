// The resolvents of a node, as they are collected.
ghost use Rattle.std.specs.Prelude.{◌≡◌, ℕ, ◌+◌, ◌*◌, ◌<◌, ◌≤◌, is_some, length, option_to_list, slice_index, slice_index_or};
ghost use Rattle.network.specs.Assignments.{opposite};
ghost use Rattle.network.specs.Resolution.{resolve};
ghost use Rattle.rules.specs.Bve.{all_resolvents, referred_clause};
ghost use Rattle.rules.specs.Store.{dead};

use crate::costs::HIGHEST_NODE;
use clause::{Lit, ordered_resolvent};
use store::store::Store;

// The words that each resolvent has for its literals, and the greatest length that it may have.
pub(crate) const WIDTH: usize = 32;

// Resolvents in lent words: number k has its length at `lengths[k]` and its literals from `literals[32 * k]` on. There are `count` of them,
// and no more than `most` may be collected.
#[derive(Drop)]
pub(crate) struct Resolvents<'w> {
    pub(crate) lengths: &'w mut [u32],
    pub(crate) literals: &'w mut [u32],
    pub(crate) count: u32,
    pub(crate) most: u32,
    ghost counted: { most ≤ length lengths.now },
    // The next resolvent is written before it is seen to be one too many, and before it is seen to be too long.
    ghost room: { 32 * most + 64 ≤ length literals.now },
    ghost within: { count ≤ most },
    ghost short: { (k : ℕ) → k < count → slice_index lengths.now k ≤ 32 },
}

// The clause that a use is of: the empty one where it is there no more.
fn used_clause<S: Store>(store: &S, user: S::Use) -> &[u32]
    ensures { (k j : ℕ) → S.usage store.now user k j → result.now ≡ referred_clause (S.meaning store.now) (slice_index_or ((S.meaning store.now).uses k) j dead) }
{
    match store.user(user) {
        Some(handle) => store.clause(handle),
        None => &[],
    }
}

impl Resolvents<'_> {
    ghost use Rattle.resolving.specs.Collected.{Added, of_sign, resolvents_with};

    // Adds the resolvent of `a`, which has the pivot, and `b`, which has its opposite, if they have one. The answer is None where it is too
    // long or one too many.
    fn add(&mut self, a: &[u32], b: &[u32], pivot: Lit) -> Option<()>
        requires { length a.now + length b.now ≤ 64 }
        ensures { Added (option_to_list (resolve pivot.word a.now b.now)) (is_some result) self.old self.new }
    {
        let from = WIDTH * self.count as usize;
        let out = &mut self.literals[from..from + 2 * WIDTH];
        let Some(len) = ordered_resolvent(a, b, pivot, out) else {
            return Some(());
        };
        if self.count == self.most || len > WIDTH {
            return None;
        }
        self.lengths[self.count as usize] = len as u32;
        self.count += 1;
        Some(())
    }

    // Adds the resolvents of a clause, which has the pivot, with the uses of its opposite. The answer is None where one is too long or
    // one too many.
    fn resolve_clause<S: Store>(&mut self, store: &S, clause: &[u32], pivot: Lit) -> Option<()>
        requires { length clause.now ≤ 32 }
        ensures { Added (resolvents_with (S.meaning store.now) pivot.word ((S.meaning store.now).uses (opposite pivot.word)) clause.now) (is_some result) self.old self.new }
    {
        let against = pivot.opposite().word;
        let mut at = store.first_use(against);
        // Counted, so that the walk is seen to end: there are as many uses as the count says, and `at` is never None here.
        for _k in 0..store.count(against) {
            let user = at?;
            self.add(clause, used_clause(store, user), pivot)?;
            at = store.next_use(against, user);
        }
        Some(())
    }

    // Adds the resolvents of the clauses of a literal with the uses of its opposite. The answer is None where one is too long or one
    // too many.
    fn resolve_sign<S: Store>(&mut self, store: &S, pivot: Lit) -> Option<()>
        ensures { Added (of_sign (S.meaning store.now) pivot.word) (is_some result) self.old self.new }
    {
        let mut at = store.first(pivot.word);
        // Counted as above.
        for _k in 0..store.own_len(pivot.word) {
            let handle = at?;
            self.resolve_clause(store, store.clause(handle), pivot)?;
            at = store.next(handle);
        }
        Some(())
    }

    // Adds the resolvents of a node, those of the clauses of its positive literal first. The answer is None where one is too long or one
    // too many.
    pub(crate) fn resolve_node<S: Store>(&mut self, store: &S, node: u32) -> Option<()>
        ensures { Added (all_resolvents (S.meaning store.now) node) (is_some result) self.old self.new }
    {
        if node > HIGHEST_NODE {
            return Some(());
        }
        let pivot = Lit::from(2 * node);
        self.resolve_sign(store, pivot)?;
        self.resolve_sign(store, pivot.opposite())
    }
}
