ghost use Rattle.std.specs.Prelude.{◌≡◌, ℕ, ◌+◌, ◌<◌, ◌≤◌, Bool, false, cond, List, [], ◌∷◌, ◌++◌, length, Some, None, ◌==◌, nat_lt, slice_index};
ghost use Rattle.network.specs.Clauses.{has, without};
ghost use Rattle.owned.specs.Lists.{listed};
ghost use Rattle.slotted.specs.Indexes.{Alike, Listing, MayJoin, Sensible};

use owned::owned::Owned;

// What finds the uses of a literal: the slots listed there, in the order in which they joined. Which literals a slot is listed at is
// known to the own lists, so what an index says depends on them.
pub trait Index {
    // A handle of the store over this index, a type of its own for each.
    type Handle: Copy;

    type Use: Copy;

    // A store over this index with room for C clauses needs EACH * C + FIXED words.
    const EACH: u16;

    const FIXED: u16;

    // The slot that a handle names.
    ghost named: { Self.Handle → ℕ };

    // For how many slots it has room.
    ghost slots: { Self → ℕ };

    // Whether a slot has joined.
    ghost joined: { Self → ℕ → Bool };

    // The uses of a literal, where slots are listed so.
    ghost used: { Self → Listing → ℕ → List ℕ };

    // The use stands at this place of this literal's uses.
    ghost usage: { Self → Listing → Self.Use → ℕ → ℕ → Type 0 };

    // For how many slots it has room.
    fn room(&self) -> u32
        ensures { result ≡ slots self.now };

    // The handle of a slot.
    fn handle(x: u32) -> Self::Handle
        ensures { named result ≡ x };

    // The slot of a handle.
    fn named(h: Self::Handle) -> u32
        ensures { result ≡ named h };

    // A slot joins, listed at these literals.
    fn join(&mut self, x: u32, literals: &[u32])
        ensures uses { (L : Listing) → MayJoin (slots self.old) (joined self.old) x literals.now → L x ≡ literals.now → (k : ℕ) → used self.new L k ≡ cond (has k literals.now) (used self.old L k ++ (x ∷ [])) (used self.old L k) }
        ensures joins { MayJoin (slots self.old) (joined self.old) x literals.now → (y : ℕ) → joined self.new y ≡ cond (y == x) (nat_lt 0 (length literals.now)) (joined self.old y) }
        ensures room { slots self.new ≡ slots self.old };

    // A slot leaves all uses.
    fn leave(&mut self, x: u32)
        ensures uses { (L : Listing) (k : ℕ) → used self.new L k ≡ without x (used self.old L k) }
        ensures joins { (y : ℕ) → joined self.new y ≡ cond (y == x) false (joined self.old y) }
        ensures room { slots self.new ≡ slots self.old };

    // Every slot leaves.
    fn clear(&mut self)
        ensures uses { (L : Listing) (k : ℕ) → used self.new L k ≡ [] }
        ensures joins { (y : ℕ) → joined self.new y ≡ false }
        ensures room { slots self.new ≡ slots self.old };

    // How many uses the literal k has.
    fn count(&self, own: &Owned<'_>, k: u32) -> u32
        ensures { result ≡ length (used self.now (listed own.now) k) };

    // The first use of the literal k.
    fn first(&self, own: &Owned<'_>, k: u32) -> Option<Self::Use>
        ensures { elim result [ None ↦ length (used self.now (listed own.now) k) ≡ 0 | Some u ↦ usage self.now (listed own.now) u k 0 ] };

    // The use of k after this one.
    fn next(&self, own: &Owned<'_>, k: u32, u: Self::Use) -> Option<Self::Use>
        ensures { (j : ℕ) → usage self.now (listed own.now) u k j → elim result [ None ↦ length (used self.now (listed own.now) k) ≡ j + 1 | Some v ↦ usage self.now (listed own.now) v k (j + 1) ] };

    // The slot that a use is of.
    fn slot(&self, u: Self::Use) -> u32
        ensures { (L : Listing) (k j : ℕ) → usage self.now L u k j → (j < length (used self.now L k)) × (slice_index (used self.now L k) j ≡ result) };

    // What makes that an index.
    ghost sensible: { (s : Self) → Sensible (joined s) (used s) };

    // A use stands at a place that is there.
    ghost within: { (s : Self) (L : Listing) (u : Self.Use) (k j : ℕ) → usage s L u k j → j < length (used s L k) };

    // A use stands where it stood if slots are listed alike.
    ghost stays: { (s : Self) (L M : Listing) → Alike (joined s) L M → (u : Self.Use) (k j : ℕ) → usage s L u k j → usage s M u k j };
}
