ghost use Rattle.std.specs.Prelude.{◌≡◌, ◌*◌, ◌≤◌, length};
ghost use Rattle.owned.specs.Layout.{Sound, own_at};
ghost use Rattle.owned.specs.Totals.{total};

// Own lists in lent words: links for the rings, and texts for the clauses. A change writes in one borrow of both.
#[derive(Drop)]
pub struct Owned<'a> {
    pub(crate) links: &'a mut [u32],
    pub(crate) texts: &'a mut [u32],
    pub(crate) room: u32,
    pub(crate) live: u32,
    ghost small: { room ≤ 4096 },
    ghost exact: { length texts.now ≡ 35 * room },
    ghost alive: { live ≡ total 2048 (λ l. length (own_at room links.now l)) },
    ghost whole: { ∥ Sound room links.now texts.now ∥₁ },
}
