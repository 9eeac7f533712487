ghost use Rattle.std.specs.Prelude.{◌≡◌, length};
ghost use Rattle.owned.specs.Lists.{At};
ghost use Rattle.slotted.specs.Tied.{blank, meaning_of, room_in};

use crate::index::Index;
use crate::slotted::Slotted;
use owned::owned::Owned;
use store::lists::Lists;

impl<'a, I: Index> Slotted<'a, I> {
    // A store without a clause over this index, in these words. Its room is the index's, or 0 where that is more than 4,096 or the
    // words are too few for it.
    pub fn new(links: &'a mut [u32], texts: &'a mut [u32], mut index: I) -> Self
        ensures { meaning_of result.own result.indexed (I.used result.index) ≡ blank (room_in (I.slots index) (length links.old) (length texts.old)) }
    {
        index.clear();
        Slotted {
            own: Owned::new(links, texts, index.room()),
            index,
            indexed: false,
        }
    }
}

impl<I: Index> Lists for Slotted<'_, I> {
    type Handle = I::Handle;

    const EACH: u16 = I::EACH;

    const FIXED: u16 = I::FIXED;

    ghost meaning = { λ s. meaning_of s.own s.indexed (I.used s.index) };

    ghost at = { λ s h l i. At s.own (I.named h) l i };

    fn room(&self) -> u32 {
        self.own.room()
    }

    fn indexed(&self) -> bool {
        self.indexed
    }

    fn live(&self) -> u32 {
        self.own.live()
    }

    fn own_len(&self, l: u32) -> u32 {
        self.own.own_len(l)
    }

    fn first(&self, l: u32) -> Option<I::Handle> {
        Some(I::handle(self.own.first(l)?))
    }

    fn next(&self, h: I::Handle) -> Option<I::Handle> {
        Some(I::handle(self.own.next(I::named(h))?))
    }

    fn nth(&self, l: u32, i: u32) -> Option<I::Handle> {
        Some(I::handle(self.own.nth(l, i)?))
    }

    fn place(&self, h: I::Handle) -> (u32, u32) {
        self.own.standing(I::named(h)).unwrap_or((0, 0))
    }

    fn clause(&self, h: I::Handle) -> &[u32] {
        self.own.text(I::named(h))
    }

    fn enter(&mut self, clause: &[u32]) -> bool {
        let Slotted {
            own,
            index,
            indexed,
        } = self;
        let Some(x) = own.admit(clause) else {
            return false;
        };
        if let [front @ .., _] = clause {
            if *indexed {
                index.join(x, front);
            }
        }
        true
    }

    fn index_off(&mut self) {
        let Slotted {
            own,
            index,
            indexed,
        } = self;
        index.clear();
        own.free_lost();
        *indexed = false;
    }

    fn empty(&mut self) {
        let Slotted {
            own,
            index,
            indexed,
        } = self;
        index.clear();
        own.empty();
        *indexed = false;
    }

    ghost use Rattle.slotted.specs.Facts.{law};

    ghost lawful = { λ s. law (meaning_of s.own s.indexed (I.used s.index)) s.law };

    ghost small = { λ s. s.own.small };
}
