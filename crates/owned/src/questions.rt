ghost use Rattle.std.specs.Prelude.{◌≡◌, ℕ, ◌+◌, ◌<◌, ◌≤◌, [], false, true, not, length, Some, None, nat_lt};
ghost use Rattle.network.specs.Clauses.{has};
ghost use Rattle.owned.specs.Layout.{lost_in};
ghost use Rattle.owned.specs.Lists.{At, listed, own, text};
ghost use Rattle.owned.specs.Totals.{total};

use crate::owned::Owned;
use crate::words::{HEADS, LITERALS, text_at, word};
use rings::after;

impl Owned<'_> {
    // How many clauses can be kept.
    pub fn room(&self) -> u32
        ensures { result ≡ self.now.room }
    {
        self.room
    }

    // How many clauses own lists have.
    pub fn live(&self) -> u32
        ensures { result ≡ total 2048 (λ l. length (own self.now l)) }
    {
        self.live
    }

    // How many slots the own list of l has.
    pub fn own_len(&self, l: u32) -> u32
        ensures { result ≡ length (own self.now l) }
    {
        self.own(l).count() as u32
    }

    // The first slot of the own list of l.
    pub fn first(&self, l: u32) -> Option<u32>
        ensures { elim result [ None ↦ length (own self.now l) ≡ 0 | Some x ↦ At self.now x l 0 ] }
    {
        self.own(l).next()
    }

    // The slot after x in its own list.
    pub fn next(&self, x: u32) -> Option<u32>
        ensures says { (l i : ℕ) → At self.now x l i → elim result [ None ↦ length (own self.now l) ≡ i + 1 | Some y ↦ At self.now y l (i + 1) ] }
        ensures absent { ((l i : ℕ) → At self.now x l i → ⊥) → result ≡ None }
    {
        self.home(x)?;
        after(self.links, HEADS, x)
    }

    // The slot at place i of the own list of l.
    pub fn nth(&self, l: u32, i: u32) -> Option<u32>
        ensures { elim result [ None ↦ length (own self.now l) ≤ i | Some x ↦ At self.now x l i ] }
    {
        self.own(l).nth(i as usize)
    }

    // The literal in whose own list slot x stands.
    pub fn home(&self, x: u32) -> Option<u32>
        ensures { elim result [ None ↦ (l i : ℕ) → At self.now x l i → ⊥ | Some l ↦ ((i : ℕ) × At self.now x l i) ] }
    {
        if x < HEADS {
            return None;
        }
        let l = *self.texts.get(text_at(x))?;
        if l < LITERALS { Some(l) } else { None }
    }

    // The literal in whose own list slot x stands, and its place there.
    pub fn standing(&self, x: u32) -> Option<(u32, u32)>
        ensures stands { (l i : ℕ) → At self.now x l i → result ≡ Some (l, i) }
        ensures absent { ((l i : ℕ) → At self.now x l i → ⊥) → result ≡ None }
    {
        self.home(x)?;
        let mut at = x;
        for i in 0..self.room {
            let y = *self.links.get(2 * at as usize + 1)?;
            if y < HEADS {
                return Some((y, i));
            }
            at = y;
        }
        None
    }

    // The clause in slot x.
    pub fn text(&self, x: u32) -> &[u32]
        ensures { result.now ≡ text self.now x }
    {
        if x < HEADS {
            return &[];
        }
        let b = text_at(x);
        let n = word(self.texts, b + 1) as usize;
        self.texts.get(b + 3..b + 3 + n).unwrap_or(&[])
    }

    // The literals that the clause in slot x lost.
    fn gone(&self, x: u32) -> &[u32]
        ensures { result.now ≡ lost_in self.now.texts.now x }
    {
        if x < HEADS {
            return &[];
        }
        let b = text_at(x);
        let n = word(self.texts, b + 1) as usize;
        let m = word(self.texts, b + 2) as usize;
        self.texts.get(b + 3 + n..b + 3 + m).unwrap_or(&[])
    }

    // Whether uses may have slot x at a literal.
    pub fn is_listed(&self, x: u32) -> bool
        ensures { result ≡ nat_lt 0 (length (listed self.now x)) }
    {
        self.text(x).len() > 1 || !self.gone(x).is_empty()
    }

    // Whether uses may have slot x at the literal k.
    pub fn lists(&self, x: u32, k: u32) -> bool
        ensures { result ≡ has k (listed self.now x) }
    {
        let front = match self.text(x) {
            [front @ .., _] => front,
            [] => &[],
        };
        front.contains(&k) || self.gone(x).contains(&k)
    }
}
