ghost use Rattle.rules.specs.Theorem.{SameSettings, flags};
ghost use Rattle.std.specs.Prelude.{◌≡◌, ℕ, ◌↔◌};
ghost use Rattle.work.specs.Promises.{words_of};

use crate::state::Work;
use store::store::Store;

// What two works with the same nodes frozen hand out admits the same settings exactly if the images taken in do, over any two stores.
pub fn compared<S: Store, T: Store>(a: &Work<'_, S>, b: &Work<'_, T>)
    ensures { ((n : ℕ) → flags a.now.simplifier.frozen n ≡ flags b.now.simplifier.frozen n) → SameSettings (flags a.now.simplifier.frozen) (words_of S.meaning a.now.simplifier) (words_of T.meaning b.now.simplifier) ↔ SameSettings (flags a.now.simplifier.frozen) a.now.image.now b.now.image.now }
{}
