// The next node.
ghost use Rattle.std.specs.Prelude.{◌≡◌, ℕ, List, [], length, MatchOption, ◌<◌, ⊤};
ghost use Rattle.network.specs.Clauses.{Rising};
ghost use Rattle.queue.specs.Heaps.{Popped};
ghost use Rattle.queue.specs.Keys.{by_key, count_sum};
ghost use Rattle.queue.specs.Waiting.{waiting};
ghost use Rattle.waiting.specs.Waits.{counts_of, both_counts, WaitAll, Next};

use crate::waiting::Waiting;
use queue::{Queue, WaitingNodes};

impl Waiting<'_> {
    // Hands out the node with the fewest uses, of those the lowest. The answer is none where no node waits.
    pub fn next(&mut self) -> Option<u32>
        ensures next { (ns : List ℕ) → Rising ns → WaitAll self.old ns → Next (both_counts self.old) ns result self.new }
        ensures node { MatchOption result ⊤ (λ n. n < 1024) }
        ensures counts { (l : ℕ) → counts_of self.new l ≡ counts_of self.old l }
    {
        first(self.counts, &mut self.queue)
    }
}

// Hands out the node that stands before every other by these counts.
fn first(counts: &mut [u32], queue: &mut Queue<'_>) -> Option<u32>
    ensures popped { MatchOption result ((waiting queue.old ≡ []) × (queue.new ≡ queue.old)) (λ e. Popped (by_key (count_sum counts.old)) (waiting queue.old) e (waiting queue.new)) }
    ensures counts { counts.new ≡ counts.old }
    ensures node { MatchOption result ⊤ (λ e. e < length queue.old.places.now) }
    ensures places { length queue.new.places.now ≡ length queue.old.places.now }
{
    queue.pop(&WaitingNodes { counts })
}
