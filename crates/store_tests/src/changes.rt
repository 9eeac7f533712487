// The changes of a store, by place and by handle.
use crate::random::Random;
use crate::shown::LITERALS;
use store::store::Store;

// How many kinds of changes there are.
pub const KINDS: usize = 10;

// Their names.
pub const NAMES: [&str; KINDS] = [
    "enter",
    "remove",
    "retire",
    "shorten",
    "remove by handle",
    "retire by handle",
    "shorten by handle",
    "index on",
    "index off",
    "empty",
];

// A change: its kind, the place that it names, a literal, and a clause.
#[derive(Drop)]
pub struct Change {
    kind: usize,
    list: u32,
    place: u32,
    literal: u32,
    clause: [u32; 4],
    len: usize,
}

// Whether a change was made, and where the handle that it answered stands.
#[derive(Clone, Copy, PartialEq, Eq)]
pub struct Answer {
    pub made: bool,
    pub at: Option<(u32, u32)>,
}

impl Answer {
    // Yes or no, and no handle.
    fn plain(made: bool) -> Answer {
        Answer { made, at: None }
    }
}

impl Change {
    // The next of the changes: entries most often, and clauses that are ill formed now and then.
    pub fn next(random: &mut Random) -> Change {
        let kind = match random.below(40) {
            0..16 => 0,
            16..19 => 1,
            19..22 => 2,
            22..26 => 3,
            26..29 => 4,
            29..32 => 5,
            32..36 => 6,
            36..38 => 7,
            38 => 8,
            _ => if random.below(20) == 0 { 9 } else { 8 },
        };
        // Nodes rise, but one in twelve times.
        let step = if random.below(12) == 0 { 0 } else { 1 };
        let mut clause = [0; 4];
        let mut node = 0u32;
        for literal in clause.iter_mut() {
            node = node.wrapping_add(step).wrapping_add(random.below(2));
            *literal = (2 * (node % 9)).wrapping_add(random.below(2));
        }
        Change {
            kind,
            list: random.below(LITERALS),
            place: random.below(2),
            literal: random.below(LITERALS),
            clause,
            len: random.below(5) as usize,
        }
    }

    // Its kind, as a place in the names.
    pub fn kind(&self) -> usize {
        self.kind
    }

    // Tries it on a store.
    pub fn try_on<S: Store>(&self, store: &mut S) -> Answer {
        match self.kind {
            0 => Answer::plain(store.enter(self.clause.get(..self.len).unwrap_or(&[]))),
            1 => Answer::plain(store.remove(self.list, self.place)),
            2 => Answer::plain(store.retire(self.list, self.place)),
            3 => Answer::plain(store.shorten(self.list, self.place, self.literal)),
            4 => self.remove_by_handle(store),
            5 => self.retire_by_handle(store),
            6 => self.shorten_by_handle(store),
            7 => {
                store.index_on();
                Answer::plain(true)
            }
            8 => {
                store.index_off();
                Answer::plain(true)
            }
            _ => {
                store.empty();
                Answer::plain(true)
            }
        }
    }

    // Removal by the handle of the place.
    fn remove_by_handle<S: Store>(&self, store: &mut S) -> Answer {
        let Some(h) = store.nth(self.list, self.place) else {
            return Answer::plain(false);
        };
        match store.remove_at(h) {
            Some(k) => Answer {
                made: true,
                at: k.map(|k| store.place(k)),
            },
            None => Answer::plain(false),
        }
    }

    // Retirement by the handle of the place, tried twice: the second time the handle stands for no clause.
    fn retire_by_handle<S: Store>(&self, store: &mut S) -> Answer {
        let Some(h) = store.nth(self.list, self.place) else {
            return Answer::plain(false);
        };
        let first = store.retire_at(h);
        let at = first.flatten().map(|k| store.place(k));
        Answer {
            made: first.is_some() && store.retire_at(h).is_none(),
            at,
        }
    }

    // Shortening by the handle of the place, mostly of a literal that is there.
    fn shorten_by_handle<S: Store>(&self, store: &mut S) -> Answer {
        let Some(h) = store.nth(self.list, self.place) else {
            return Answer::plain(false);
        };
        let x = match store.clause(h) {
            [first, ..] if self.len > 1 => *first,
            _ => self.literal,
        };
        Answer::plain(store.shorten_at(h, x))
    }
}
