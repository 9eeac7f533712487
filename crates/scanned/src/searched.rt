ghost use Rattle.std.specs.Prelude.{◌≤◌};
ghost use Rattle.scanned.specs.Sequence.{Sound};

// An index whose uses are found by search: the slots that have joined, in one ring of lent words.
#[derive(Drop)]
pub struct Searched<'a> {
    pub(crate) words: &'a mut [u32],
    pub(crate) room: u32,
    ghost small: { room ≤ 4096 },
    ghost sound: { ∥ Sound room words.now ∥₁ },
}
