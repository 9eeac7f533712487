ghost use Rattle.std.specs.Prelude.{◌≤◌};
ghost use Rattle.slotted.specs.Tied.{Tied, meaning_of};
ghost use Rattle.slotted.specs.Law.{Law};

use crate::index::Index;
use owned::owned::Owned;

// Own lists and an index, which stands or does not.
#[derive(Drop)]
pub struct Slotted<'a, I: Index> {
    pub(crate) own: Owned<'a>,
    pub(crate) index: I,
    pub(crate) indexed: bool,
    ghost fits: { own.room ≤ I.slots index },
    ghost tied: { ∥ Tied own indexed (I.joined index) (I.used index) ∥₁ },
    ghost law: { ∥ Law (meaning_of own indexed (I.used index)) ∥₁ },
}
