// The counts, and what changes them.
ghost use Rattle.std.specs.Prelude.{◌≡◌, ℕ, ◌+◌, ◌*◌, ◌-◌, ◌^◌, ◌<◌, min, slice_set};
ghost use Rattle.network.specs.Clauses.{front};
ghost use Rattle.queue.specs.Heaps.{Heap};
ghost use Rattle.queue.specs.Keys.{by_key, count_sum};
ghost use Rattle.queue.specs.Waiting.{waiting, Rearranged};
ghost use Rattle.waiting.specs.Waits.{counts_of, both_counts, SameWait, times};

use crate::waiting::Waiting;
use queue::{Queue, WaitingNodes};

// The literals of a clause but the last.
fn but_last(clause: &[u32]) -> &[u32]
    ensures { result.now ≡ front clause.now }
{
    match clause {
        [front @ .., _] => front,
        [] => &[],
    }
}

impl Waiting<'_> {
    // Both counts of a node. A count past the end is 0.
    pub fn sum(&self, node: u32) -> u64
        ensures { result ≡ both_counts self.now node }
    {
        let positive = 2 * node as usize;
        self.count(positive) as u64 + self.count(positive + 1) as u64
    }

    // The count of a literal, 0 past the end.
    fn count(&self, literal: usize) -> u32
        ensures { result ≡ counts_of self.now literal }
    {
        self.counts.get(literal).copied().unwrap_or(0)
    }

    // Tells that a clause goes: the count of each of its literals but the last is one less, if it is not 0.
    pub fn clause_goes(&mut self, clause: &[u32])
        ensures counts { (l : ℕ) → l < 2048 → counts_of self.new l ≡ counts_of self.old l - times l (front clause.now) }
        ensures waits { SameWait self.old self.new }
    {
        let front = but_last(clause);
        for literal in front {
            self.recount(*literal, self.count(*literal as usize).saturating_sub(1));
        }
    }

    // Tells that a clause comes: the count of each of its literals but the last is one more, if a word can hold it.
    pub fn clause_comes(&mut self, clause: &[u32])
        ensures counts { (l : ℕ) → l < 2048 → counts_of self.new l ≡ min (counts_of self.old l + times l (front clause.now)) (2 ^ 32 - 1) }
        ensures waits { SameWait self.old self.new }
    {
        let front = but_last(clause);
        for literal in front {
            self.recount(*literal, self.count(*literal as usize).saturating_add(1));
        }
    }

    // Sets the count of a literal, and moves its node if that waits.
    fn recount(&mut self, literal: u32, count: u32)
        ensures counts { self.new.counts.now ≡ slice_set self.old.counts.now literal count }
        ensures waits { SameWait self.old self.new }
    {
        set_count(self.counts, &mut self.queue, literal, count);
    }
}

// Sets the count of a literal, and moves its node if that waits.
fn set_count(counts: &mut [u32], queue: &mut Queue<'_>, literal: u32, count: u32)
    ensures counts { counts.new ≡ slice_set counts.old literal count }
    ensures moved { Rearranged queue.old queue.new }
    ensures heap { Heap (by_key (count_sum counts.old)) (waiting queue.old) → Heap (by_key (count_sum counts.new)) (waiting queue.new) }
{
    if (literal as usize) < counts.len() {
        counts[literal as usize] = count;
        queue.changed(&WaitingNodes { counts }, literal / 2);
    }
}
