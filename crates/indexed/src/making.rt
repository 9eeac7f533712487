ghost use Rattle.std.specs.Prelude.{◌≡◌, length, if◌then◌else◌};
ghost use Rattle.indexed.specs.Links.{used_in};
ghost use Rattle.slotted.specs.Tied.{blank, meaning_of};
ghost use Rattle.store.specs.Checks.{checked, sized};

use crate::linked::Linked;
use image::fault::Fault;
use owned::sizes::{link_words, text_words};
use slotted::index::Index;
use slotted::slotted::Slotted;
use store::check::check_words;

// The indexed store: clauses in slots, uses linked.
pub type Indexed<'a> = Slotted<'a, Linked<'a>>;

// Whether an indexed store can have this room in so many words.
pub fn check(room: u32, words: usize) -> Result<(), Fault>
    ensures { result ≡ checked 120 16384 room words }
{
    check_words(Linked::EACH, Linked::FIXED, room, words)
}

// An indexed store in these words. Making a store refuses nothing (docs/RULES.md), so where the check would refuse, it has no room.
pub fn indexed(words: &mut [u32], room: u32) -> Indexed<'_>
    ensures { meaning_of result.own result.indexed (λ L. used_in result.index.room result.index.words.now) ≡ blank (if sized 120 16384 room (length words.old) then room else 0) }
{
    let room = if check(room, words.len()).is_ok() {
        room
    } else {
        0
    };
    let (links, rest) = words.split_at_mut(link_words(room));
    let (texts, rest) = rest.split_at_mut(text_words(room));
    Slotted::new(links, texts, Linked::new(rest, room))
}
