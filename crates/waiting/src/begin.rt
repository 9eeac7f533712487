// How the waiting begins.
ghost use Rattle.std.specs.Prelude.{◌≡◌, ℕ, ◌+◌, ◌-◌, ◌*◌, ◌<◌, ◌≤◌, ◌⊎◌, length, MatchOption, slice_index};
ghost use Rattle.std.specs.List.{range_with_len};
ghost use Rattle.std.specs.List.Sorted.{IsPermutation};
ghost use Rattle.queue.specs.Heaps.{Heap};
ghost use Rattle.queue.specs.Keys.{by_key, count_sum};
ghost use Rattle.queue.specs.Waiting.{waiting};
ghost use Rattle.rules.specs.Store.{count};
ghost use Rattle.waiting.specs.Waits.{Begins};

use crate::waiting::Waiting;
use queue::{Queue, WaitingNodes};
use store::store::Store;

// How many words are lent: a count for each literal, and for each node its place and an entry.
pub const WORDS: usize = 4096;

impl<'w> Waiting<'w> {
    // The nodes 0 to `top` wait, with the counts of the store. The words are the first 4,096 of those lent, and the others are handed
    // back. The answer is none where fewer are lent, or where `top` is no node.
    pub fn new<S: Store>(
        store: &S,
        top: u32,
        words: &'w mut [u32],
    ) -> Option<(Waiting<'w>, &'w mut [u32])>
        ensures { MatchOption result ((length words.old < 4096) ⊎ (1023 < top)) (λ p. Begins (S.meaning store.now) top p.0 × (4096 ≤ length words.old) × (top ≤ 1023) × (length p.1.now ≡ length words.old - 4096)) }
    {
        if words.len() < WORDS || top > 1023 {
            return None;
        }
        let (counts, others) = words.split_at_mut(2048);
        let (entries, others) = others.split_at_mut(1024);
        let (places, others) = others.split_at_mut(1024);
        fill(counts, store, top);
        let mut queue = Queue::new(entries, places);
        build(counts, &mut queue, top);
        Some((Waiting { counts, queue }, others))
    }
}

// Writes the count of each literal of the nodes 0 to `top`, and 0 for the others.
fn fill<S: Store>(counts: &mut [u32], store: &S, top: u32)
    requires { length counts.old ≡ 2048 }
    ensures counts { (l : ℕ) → l < 2048 → l < 2 * top + 2 → slice_index counts.new l ≡ count (S.meaning store.now) l }
    ensures none { (l : ℕ) → l < 2048 → 2 * top + 2 ≤ l → slice_index counts.new l ≡ 0 }
{
    for (literal, place) in counts.iter_mut().enumerate() {
        *place = if literal / 2 <= top as usize {
            store.count(literal as u32)
        } else {
            0
        };
    }
}

// Makes the nodes 0 to `top` wait.
fn build(counts: &mut [u32], queue: &mut Queue<'_>, top: u32)
    requires { (top ≤ 1023) × (1024 ≤ length queue.old.entries.now) × (1024 ≤ length queue.old.places.now) }
    ensures counts { counts.new ≡ counts.old }
    ensures waits { IsPermutation (range_with_len 0 (top + 1)) (waiting queue.new) }
    ensures heap { Heap (by_key (count_sum counts.old)) (waiting queue.new) }
    ensures places { length queue.new.places.now ≡ length queue.old.places.now }
{
    queue.build(&WaitingNodes { counts }, 0, top + 1);
}
