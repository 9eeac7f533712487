// The queue, and what can be asked of it.
ghost use Rattle.std.specs.Prelude.{◌≡◌, ◌≤◌, [], length, take, Decides};
ghost use Rattle.queue.specs.Places.{Words, Placed};

// Entries that wait, each of them once. The words are lent, so `len` stands beside them: the first `len` words of `entries`
// are the entries that wait, and `places` has the place of each.
#[derive(Drop)]
pub struct Queue<'q> {
    pub(crate) entries: &'q mut [u32],
    pub(crate) places: &'q mut [u32],
    pub(crate) len: usize,
    ghost within: { len ≤ length entries.now },
    ghost words: { Words (take len entries.now) },
    ghost placed: { Placed (take len entries.now) places.now },
}

impl<'q> Queue<'q> {
    ghost use Rattle.std.specs.List.{ContainsAt as Has};
    ghost use Rattle.queue.specs.Waiting.{waiting};

    // A queue over lent words, in which nothing waits.
    pub fn new(entries: &'q mut [u32], places: &'q mut [u32]) -> Queue<'q>
        ensures none { waiting result ≡ [] }
        ensures entries { result.entries.now ≡ entries.old }
        ensures places { result.places.now ≡ places.old }
    {
        Queue {
            entries,
            places,
            len: 0,
        }
    }

    // How many entries wait.
    pub fn len(&self) -> usize
        ensures { result ≡ length (waiting self.now) }
    {
        self.len
    }

    // Whether nothing waits.
    pub fn is_empty(&self) -> bool
        ensures { Decides result (waiting self.now ≡ []) }
    {
        self.len() == 0
    }

    // Whether an entry waits.
    pub fn waits(&self, entry: u32) -> bool
        ensures { Decides result (Has (waiting self.now) entry) }
    {
        self.place(entry).is_some()
    }
}
