// The simplification as a whole.
ghost use Rattle.lemmas.specs.Lines.{Admits, Simplified};
ghost use Rattle.std.specs.Prelude.{◌≡◌, ◌≤◌, MatchOption, is_some, Decides, EachIndex, slice_index};

use crate::sort::sort;
use crate::words::{Clauses, WIDTH};

// The words that a simplification is lent: five slices, and no `Clauses` with three more, so that a caller learns what each
// holds afterwards.
#[derive(Drop)]
pub struct Lemmas<'w> {
    // Clause k has its length at `lengths[k]` and its literals from `literals[32 * k]` on.
    pub lengths: &'w mut [u32],
    pub literals: &'w mut [u32],
    // The line of the numbers of those that are left.
    pub order: &'w mut [u32],
    // Working words, one of each for a clause.
    pub entries: &'w mut [u32],
    pub places: &'w mut [u32],
}

// Whether each clause has at most 32 literals.
fn are_short(lengths: &[u32]) -> bool
    ensures { Decides result (EachIndex lengths.now (λ k. slice_index lengths.now k ≤ 32)) }
{
    lengths.iter().all(|&len| len as usize <= WIDTH)
}

impl Lemmas<'_> {
    // Whether there are words for `count` clauses, each of at most 32 literals.
    fn admits(&self, count: u32) -> bool
        ensures { Decides result (Admits count self.now) }
    {
        let n = count as usize;
        n <= self.lengths.len()
            && n <= self.literals.len() / WIDTH
            && n <= self.order.len()
            && n <= self.entries.len()
            && n <= self.places.len()
            && are_short(&self.lengths[..n])
    }

    // Simplifies the first `count` clauses among themselves. Answers how many are left, r, and `order[0..r]` names them, each once, by the
    // length that they came with, then by arrival. The answer is none, and nothing has changed, where there are too few words or a clause
    // is longer than 32 literals. The same words stay lent.
    pub fn lemmas_subsume_simplify(&mut self, count: u32) -> Option<usize>
        ensures when { Decides (is_some result) (Admits count self.old) }
        ensures answer { MatchOption result (self.new ≡ self.old) (λ m. Simplified count m self.old self.new) }
        ensures lengths { self.new.lengths.ghost_name ≡ self.old.lengths.ghost_name }
        ensures literals { self.new.literals.ghost_name ≡ self.old.literals.ghost_name }
        ensures order { self.new.order.ghost_name ≡ self.old.order.ghost_name }
        ensures entries { self.new.entries.ghost_name ≡ self.old.entries.ghost_name }
        ensures places { self.new.places.ghost_name ≡ self.old.places.ghost_name }
    {
        if !self.admits(count) {
            return None;
        }
        let mut clauses = Clauses {
            lengths: &mut *self.lengths,
            literals: &mut *self.literals,
        };
        sort(&clauses, count, self.order, self.entries, self.places);
        // The order is made, so its working words are free: one of each clause takes its mark.
        let marks = &mut self.entries[..count as usize];
        clauses.sign(marks, count);
        Some(clauses.run(self.order, marks, count as usize))
    }
}
