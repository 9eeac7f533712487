ghost use Rattle.std.specs.Prelude.{◌≤◌};
ghost use Rattle.indexed.specs.Links.{Sound};

// An index whose uses are linked: the uses of each literal in a ring of lent words.
#[derive(Drop)]
pub struct Linked<'a> {
    pub(crate) words: &'a mut [u32],
    pub(crate) room: u32,
    ghost small: { room ≤ 4096 },
    ghost sound: { ∥ Sound room words.now ∥₁ },
}
