ghost use Rattle.std.specs.Prelude.{◌≡◌, ℕ, ◌+◌, []};
ghost use Rattle.slotted.specs.Filled.{Filled, SameLists, earlier};

use crate::index::Index;
use owned::owned::Owned;

// How many literals have own lists.
const LITERALS: u32 = 2048;

// The slots of the own list of l join, in its order.
fn fill_from<I: Index>(own: &mut Owned<'_>, index: &mut I, l: u32)
    requires { Filled (earlier l own.old) own.old (I.slots index.old) (I.joined index.old) (I.used index.old) }
    ensures filled { Filled (earlier (l + 1) own.old) own.new (I.slots index.new) (I.joined index.new) (I.used index.new) }
    ensures same { SameLists own.old own.new }
{
    let mut at = own.first(l);
    while let Some(x) = at {
        own.relist(x);
        // No clause is empty.
        if let [front @ .., _] = own.text(x) {
            index.join(x, front);
        }
        at = own.next(x);
    }
}

// The slots of every own list join, by literals rising.
pub(crate) fn fill<I: Index>(own: &mut Owned<'_>, index: &mut I)
    requires { Filled [] own.old (I.slots index.old) (I.joined index.old) (I.used index.old) }
    ensures filled { Filled (earlier 2048 own.old) own.new (I.slots index.new) (I.joined index.new) (I.used index.new) }
    ensures same { SameLists own.old own.new }
{
    for l in 0..LITERALS {
        fill_from(own, index, l);
    }
}
