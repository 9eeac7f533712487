ghost use Rattle.std.specs.Prelude.{◌≡◌, length};
ghost use Rattle.queue.specs.Heaps.{Heap};
ghost use Rattle.queue.specs.Keys.{by_key, count_sum};
ghost use Rattle.queue.specs.Places.{Words};
ghost use Rattle.queue.specs.Waiting.{waiting};

use queue::Queue;

// The nodes that wait, by both their counts, and the count of each of 2,048 literals. The words are lent.
#[derive(Drop)]
pub struct Waiting<'w> {
    pub(crate) counts: &'w mut [u32],
    pub(crate) queue: Queue<'w>,
    ghost many: { length counts.now ≡ 2048 },
    ghost words: { Words counts.now },
    ghost nodes: { length queue.places.now ≡ 1024 },
    ghost heap: { Heap (by_key (count_sum counts.now)) (waiting queue) },
}
