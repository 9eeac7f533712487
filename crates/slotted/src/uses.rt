ghost use Rattle.std.specs.Prelude.{◌≡◌, ℕ};
ghost use Rattle.owned.specs.Lists.{listed};

use crate::fill::fill;
use crate::index::Index;
use crate::slotted::Slotted;
use store::store::Store;

impl<I: Index> Store for Slotted<'_, I> {
    type Use = I::Use;

    ghost usage = { λ s u k j. I.usage s.index (listed s.own) u k j };

    fn same(&self, a: I::Handle, b: I::Handle) -> bool {
        I::named(a) == I::named(b)
    }

    fn count(&self, k: u32) -> u32 {
        self.index.count(&self.own, k)
    }

    fn first_use(&self, k: u32) -> Option<I::Use> {
        self.index.first(&self.own, k)
    }

    fn next_use(&self, k: u32, u: I::Use) -> Option<I::Use> {
        self.index.next(&self.own, k, u)
    }

    fn user(&self, u: I::Use) -> Option<I::Handle> {
        let x = self.index.slot(u);
        // A slot that no own list has is lost.
        self.own.home(x)?;
        Some(I::handle(x))
    }

    fn remove_at(&mut self, h: I::Handle) -> Option<Option<I::Handle>> {
        let x = I::named(h);
        let Slotted { own, index, .. } = self;
        own.home(x)?;
        index.leave(x);
        let Some(y) = own.release(x)? else {
            return Some(None);
        };
        Some(Some(I::handle(y)))
    }

    fn retire_at(&mut self, h: I::Handle) -> Option<Option<I::Handle>> {
        let x = I::named(h);
        // While an index stands, a slot is used where it is listed.
        let used = self.indexed && self.own.is_listed(x);
        let own = &mut self.own;
        let Some(y) = own.retire(x, used)? else {
            return Some(None);
        };
        Some(Some(I::handle(y)))
    }

    fn shorten_at(&mut self, h: I::Handle, x: u32) -> bool {
        let own = &mut self.own;
        own.shorten(I::named(h), x)
    }

    fn index_on(&mut self) {
        if self.indexed {
            return;
        }
        let Slotted {
            own,
            index,
            indexed,
        } = self;
        fill(own, index);
        *indexed = true;
    }
}
