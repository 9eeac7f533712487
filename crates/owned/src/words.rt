ghost use Rattle.std.specs.Prelude.{◌≡◌, ◌+◌, ◌*◌, ◌≤◌, ◌<◌, [], length, slice_index};
ghost use Rattle.network.specs.Clauses.{well_formed};
ghost use Rattle.owned.specs.Layout.{Cleared, Kin, Sound, Written, lost_at, node_count, text_at};

use image::shape::{ClauseTest, InOrder};
use rings::{after, link, scatter, shift};

// How many literals there are: the heads below are those of their own lists.
pub(crate) const LITERALS: u32 = 2048;

// The head of the free slots. This and the heads below are numbers and no enum: `rings` takes every node by its number.
pub(crate) const FREE: u32 = 2048;

// The head of the lost slots.
pub(crate) const LOST: u32 = 2049;

// How many heads there are, and the node of the first slot.
pub(crate) const HEADS: u32 = 2050;

// How many words a slot has: the head of its ring, the length of its clause, that with what it lost, and its literals.
pub(crate) const SLOT: usize = 35;

// The longest clause.
pub(crate) const LONGEST: usize = 32;

// Where the words of slot x begin.
pub(crate) fn text_at(x: u32) -> usize
    ensures { result ≡ text_at x }
{
    SLOT * x.saturating_sub(HEADS) as usize
}

// The word at i; 0 past the end.
pub(crate) fn word(words: &[u32], i: usize) -> u32
    ensures { result ≡ slice_index words.now i }
{
    words.get(i).copied().unwrap_or(0)
}

// Writes a clause to the words of a slot.
pub(crate) fn write(texts: &mut [u32], b: usize, clause: &[u32])
    requires { (b + 35 ≤ length texts.old) × (length clause.now < 33) }
    ensures { Written texts.old texts.new b clause.now }
{
    let n = clause.len();
    texts[b + 1] = n as u32;
    texts[b + 2] = n as u32;
    texts[b + 3..b + 3 + n].copy_from_slice(clause);
}

// Whether a clause is well formed.
pub(crate) fn well_formed(c: &[u32]) -> bool
    ensures { result ≡ well_formed c.now }
{
    match c {
        [.., last] => c.len() <= LONGEST && InOrder.passes(c) && *last < LITERALS,
        [] => false,
    }
}

// Each slot free and without a text, and every own list without a slot.
pub(crate) fn clear(links: &mut [u32], texts: &mut [u32], room: u32)
    requires { (room ≤ 4096) × (length texts.old ≡ 35 * room) × (0 < room → 2 * node_count room ≤ length links.old) }
    ensures cleared { Cleared room links.new texts.new }
    ensures long { length texts.new ≡ length texts.old }
{
    if room == 0 {
        return;
    }
    scatter(links, HEADS + room);
    for i in 0..room {
        link(links, FREE, HEADS + i);
        let b = SLOT * i as usize;
        texts[b] = FREE;
        texts[b + 1] = 0;
        texts[b + 2] = 0;
    }
}

// Frees every lost slot.
pub(crate) fn free_all(links: &mut [u32], texts: &mut [u32], room: u32)
    requires { Sound room links.old texts.old × (length texts.old ≡ 35 * room) }
    ensures sound { Sound room links.new texts.new }
    ensures kin { Kin room links.old texts.old links.new texts.new }
    ensures none { lost_at room links.new ≡ [] }
{
    if room == 0 {
        return;
    }
    while let Some(x) = after(links, HEADS, LOST) {
        shift(links, FREE, x);
        texts[text_at(x)] = FREE;
    }
}
