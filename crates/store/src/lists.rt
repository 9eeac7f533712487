ghost use Rattle.std.specs.Prelude.{◌≡◌, ℕ, ◌+◌, ◌<◌, ◌≤◌, length, if◌then◌else◌, Some, None};
ghost use Rattle.rules.specs.Lawful.{Lawful};
ghost use Rattle.rules.specs.Store.{Meaning, clause_at, emptied, enterable, entered, index_off, live_clauses};

// What keeps clauses in own lists, in words that its maker lent it. A handle stands for a live clause while no change moves it.
pub trait Lists {
    type Handle: Copy;

    // A store with room for C clauses needs EACH * C + FIXED words.
    const EACH: u16;

    const FIXED: u16;

    ghost meaning: { Self → Meaning };

    // The handle's clause stands at this place of this literal's own list.
    ghost at: { Self → Self.Handle → ℕ → ℕ → Type 0 };

    // How many clauses can be kept.
    fn room(&self) -> u32
        ensures { result ≡ (meaning self.now).room };

    // Whether an index stands.
    fn indexed(&self) -> bool
        ensures { result ≡ (meaning self.now).indexed };

    // How many clauses are live.
    fn live(&self) -> u32
        ensures { result ≡ live_clauses (meaning self.now) };

    // How many clauses the own list of l has.
    fn own_len(&self, l: u32) -> u32
        ensures { result ≡ length ((meaning self.now).own l) };

    // The first clause of the own list of l.
    fn first(&self, l: u32) -> Option<Self::Handle>
        ensures { elim result [ None ↦ length ((meaning self.now).own l) ≡ 0 | Some h ↦ at self.now h l 0 × (0 < length ((meaning self.now).own l)) ] };

    // The clause after this one in its own list.
    fn next(&self, h: Self::Handle) -> Option<Self::Handle>
        ensures { (l i : ℕ) → at self.now h l i → elim result [ None ↦ length ((meaning self.now).own l) ≡ i + 1 | Some k ↦ at self.now k l (i + 1) × (i + 1 < length ((meaning self.now).own l)) ] };

    // The clause at place i of the own list of l. A place is two arguments and no struct, as `at` and the rules take it.
    fn nth(&self, l: u32, i: u32) -> Option<Self::Handle>
        ensures { elim result [ None ↦ length ((meaning self.now).own l) ≤ i | Some h ↦ at self.now h l i × (i < length ((meaning self.now).own l)) ] }
    {
        let mut at = self.first(l);
        for _k in 0..i {
            at = self.next(at?);
        }
        at
    }

    // The literal and the place where the handle's clause stands. No Option: it would be Some for every
    // handle that stands, and each caller would have to take it apart.
    fn place(&self, h: Self::Handle) -> (u32, u32)
        ensures { (l i : ℕ) → at self.now h l i → (result.0 ≡ l) × (result.1 ≡ i) };

    // The literals of the handle's clause.
    fn clause(&self, h: Self::Handle) -> &[u32]
        ensures { (l i : ℕ) → at self.now h l i → result.now ≡ clause_at (meaning self.now) l i };

    // Appends a clause to the own list of its last literal and, with an index, to the uses of its other literals. The answer is no,
    // with nothing changed, where it is ill formed or there is no room. Handles keep their places.
    fn enter(&mut self, clause: &[u32]) -> bool
        ensures when { result ≡ enterable (meaning self.old) clause.now }
        ensures makes { meaning self.new ≡ (if result then entered clause.now (meaning self.old) else meaning self.old) }
        ensures keeps { (h : Self.Handle) (l i : ℕ) → at self.old h l i → at self.new h l i };

    // Drops the uses. Handles keep their places.
    fn index_off(&mut self)
        ensures makes { meaning self.new ≡ index_off (meaning self.old) }
        ensures keeps { (h : Self.Handle) (l i : ℕ) → at self.old h l i → at self.new h l i };

    // Leaves no clause and no index.
    fn empty(&mut self)
        ensures { meaning self.new ≡ emptied (meaning self.old) };

    // What holds of every store.
    ghost lawful: { (s : Self) → Lawful (meaning s) };

    ghost small: { (s : Self) → (meaning s).room ≤ 4096 };
}
