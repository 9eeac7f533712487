ghost use Rattle.intake.specs.Answers.{accepts};
ghost use Rattle.std.specs.Prelude.{◌≡◌, true, false, slice_index_or};

// An image that was found right, and the nodes that are frozen in it, node 0 always.
#[derive(Drop)]
pub struct Intake<'i> {
    pub(crate) image: &'i [u32],
    pub(crate) frozen: [bool; 1024],
    ghost right: { accepts image.now ≡ true },
    ghost zero: { slice_index_or frozen 0 false ≡ true },
}
