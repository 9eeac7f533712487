ghost use Rattle.work.specs.Shown.{Underway};

use simplifier::state::Simplifier;
use store::store::Store;

// A network under simplification: the image taken in, and what has become of its network. Its type says that some calls after a
// start led here.
#[derive(Drop)]
pub struct Work<'i, S: Store> {
    pub(crate) image: &'i [u32],
    pub(crate) simplifier: Simplifier<S>,
    ghost reached: { ∥ Underway S.meaning image.now simplifier ∥₁ },
}
