ghost use Rattle.std.specs.Prelude.{◌≡◌, ℕ, ◌+◌, ◌<◌, false, ◌&&◌, length, if◌then◌else◌, Some, None, ◌==◌, slice_index_or};
ghost use Rattle.rules.specs.Store.{clause_at, count, dead, droppable, index_on, live, present, removed, retired, shortened};
ghost use Rattle.rules.specs.Subsume.{place_after};

use crate::lists::Lists;

// What keeps clauses in own lists, and finds them by the uses of a literal too. A use stands for an entry of a literal's uses.
pub trait Store: Lists {
    type Use: Copy;

    // The use stands at this place of this literal's uses.
    ghost usage: { Self → Self.Use → ℕ → ℕ → Type 0 };

    // Whether two handles stand for the same clause.
    fn same(&self, a: Self::Handle, b: Self::Handle) -> bool
        ensures { (l i m j : ℕ) → Self.at self.now a l i → Self.at self.now b m j → result ≡ (m == l && j == i) };

    // How many uses the literal k has.
    fn count(&self, k: u32) -> u32
        ensures { result ≡ count (Self.meaning self.now) k };

    // The first use of the literal k.
    fn first_use(&self, k: u32) -> Option<Self::Use>
        ensures { elim result [ None ↦ length ((Self.meaning self.now).uses k) ≡ 0 | Some u ↦ usage self.now u k 0 × (0 < length ((Self.meaning self.now).uses k)) ] };

    // The use of k after this one.
    fn next_use(&self, k: u32, u: Self::Use) -> Option<Self::Use>
        ensures { (j : ℕ) → usage self.now u k j → elim result [ None ↦ length ((Self.meaning self.now).uses k) ≡ j + 1 | Some v ↦ usage self.now v k (j + 1) × (j + 1 < length ((Self.meaning self.now).uses k)) ] };

    // The clause that the use is of, if it is live.
    fn user(&self, u: Self::Use) -> Option<Self::Handle>
        ensures { (k j : ℕ) → usage self.now u k j → elim result [ None ↦ slice_index_or ((Self.meaning self.now).uses k) j dead ≡ dead | Some h ↦ ((l i : ℕ) × Self.at self.now h l i × (slice_index_or ((Self.meaning self.now).uses k) j dead ≡ live l i)) ] };

    // Takes place i out of the own list of l, whose last clause comes there, and out of every list of uses. The answer is no, with
    // nothing changed, where there is no such place.
    fn remove(&mut self, l: u32, i: u32) -> bool
        ensures when { result ≡ present (Self.meaning self.old) l i }
        ensures makes { Self.meaning self.new ≡ (if result then removed l i (Self.meaning self.old) else Self.meaning self.old) }
    {
        let Some(h) = self.nth(l, i) else {
            return false;
        };
        self.remove_at(h);
        true
    }

    // Takes the handle's clause out of its own list, whose last clause comes to its place, and out of every list of uses. The answer is
    // the clause that stands at the place now, if one does. The outer None is a store's no: the handle stands for no clause, and nothing
    // has changed.
    fn remove_at(&mut self, h: Self::Handle) -> Option<Option<Self::Handle>>
        ensures absent { ((l i : ℕ) → Self.at self.old h l i → ⊥) → (result ≡ None) × (Self.meaning self.new ≡ Self.meaning self.old) }
        ensures makes { (l i : ℕ) → Self.at self.old h l i → Self.meaning self.new ≡ removed l i (Self.meaning self.old) }
        ensures then { (l i : ℕ) → Self.at self.old h l i → elim result [ None ↦ ⊥ | Some o ↦ elim o [ None ↦ length ((Self.meaning self.new).own l) ≡ i | Some k ↦ Self.at self.new k l i × (i < length ((Self.meaning self.new).own l)) ] ] };

    // Takes place i out of the own list of l, order kept. Lists of uses that have the clause keep it, dead. The answer is no, with
    // nothing changed, where there is no such place.
    fn retire(&mut self, l: u32, i: u32) -> bool
        ensures when { result ≡ present (Self.meaning self.old) l i }
        ensures makes { Self.meaning self.new ≡ (if result then retired l i (Self.meaning self.old) else Self.meaning self.old) }
    {
        let Some(h) = self.nth(l, i) else {
            return false;
        };
        self.retire_at(h);
        true
    }

    // Takes the handle's clause out of its own list, order kept. Lists of uses that have the clause keep it, dead. The answer is as that of
    // `remove_at`. Other handles follow their clauses, and uses keep their places.
    fn retire_at(&mut self, h: Self::Handle) -> Option<Option<Self::Handle>>
        ensures absent { ((l i : ℕ) → Self.at self.old h l i → ⊥) → (result ≡ None) × (Self.meaning self.new ≡ Self.meaning self.old) }
        ensures makes { (l i : ℕ) → Self.at self.old h l i → Self.meaning self.new ≡ retired l i (Self.meaning self.old) }
        ensures then { (l i : ℕ) → Self.at self.old h l i → elim result [ None ↦ ⊥ | Some o ↦ elim o [ None ↦ length ((Self.meaning self.new).own l) ≡ i | Some k ↦ Self.at self.new k l i × (i < length ((Self.meaning self.new).own l)) ] ] }
        ensures follow { (l i : ℕ) → Self.at self.old h l i → (k : Self.Handle) (m j : ℕ) → Self.at self.old k m j → ((m ≡ l) × (j ≡ i) → ⊥) → Self.at self.new k m (place_after l i m j) }
        ensures keeps { (u : Self.Use) (k j : ℕ) → usage self.old u k j → usage self.new u k j };

    // Drops the literal x, not the last, from the clause at place i of the own list of l. The uses stay. The answer is no, with
    // nothing changed, where there is no such place or x is not there to be dropped.
    fn shorten(&mut self, l: u32, i: u32, x: u32) -> bool
        ensures when { result ≡ droppable (Self.meaning self.old) l i x }
        ensures makes { Self.meaning self.new ≡ (if result then shortened l i x (Self.meaning self.old) else Self.meaning self.old) }
    {
        let Some(h) = self.nth(l, i) else {
            return false;
        };
        self.shorten_at(h, x)
    }

    // Drops the literal x, not the last, from the handle's clause. The answer is no, with nothing changed, where the handle stands for no
    // clause or x is not there to be dropped. Handles and uses keep their places.
    fn shorten_at(&mut self, h: Self::Handle, x: u32) -> bool
        ensures absent { ((l i : ℕ) → Self.at self.old h l i → ⊥) → (result ≡ false) × (Self.meaning self.new ≡ Self.meaning self.old) }
        ensures when { (l i : ℕ) → Self.at self.old h l i → result ≡ droppable (Self.meaning self.old) l i x }
        ensures makes { (l i : ℕ) → Self.at self.old h l i → Self.meaning self.new ≡ (if result then shortened l i x (Self.meaning self.old) else Self.meaning self.old) }
        ensures follow { (k : Self.Handle) (m j : ℕ) → Self.at self.old k m j → Self.at self.new k m j }
        ensures keeps { (u : Self.Use) (k j : ℕ) → usage self.old u k j → usage self.new u k j };

    // Fills the uses of every literal, unless an index stands. Handles keep their places.
    fn index_on(&mut self)
        ensures makes { Self.meaning self.new ≡ index_on (Self.meaning self.old) }
        ensures keeps { (h : Self.Handle) (l i : ℕ) → Self.at self.old h l i → Self.at self.new h l i };
}
