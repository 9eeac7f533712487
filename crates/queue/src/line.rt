// The line of the entries that wait, and how it grows.
ghost use Rattle.std.specs.Prelude.{◌-◌, ◌≤◌, length, Decides};
ghost use Rattle.queue.specs.Waiting.{Found, Enters, Appended, Filled};

use crate::queue::Queue;

impl Queue<'_> {
    // The place of an entry, if it waits. A word of the index that is out of date points past the
    // entries that wait, or at another entry.
    pub(crate) fn place(&self, entry: u32) -> Option<usize>
        ensures { Found self.now entry result }
    {
        let place = *self.places.get(entry as usize)? as usize;
        (place < self.len && self.entries[place] == entry).then_some(place)
    }

    // Whether an entry can join.
    pub(crate) fn admits(&self, entry: u32) -> bool
        ensures { Decides result (Enters self.now entry) }
    {
        self.len < self.entries.len()
            && (entry as usize) < self.places.len()
            && self.place(entry).is_none()
    }

    // Adds an entry behind the others.
    pub(crate) fn append(&mut self, entry: u32)
        requires { Enters self.old entry }
        ensures { Appended entry self.old self.new }
    {
        self.entries[self.len] = entry;
        self.places[entry as usize] = self.len as u32;
        self.len += 1;
    }

    // Makes the numbers from `from` on and below `to` wait, in place of what waited.
    pub(crate) fn fill(&mut self, from: u32, to: u32)
        requires { (to - from ≤ length self.old.entries.now) × (to ≤ length self.old.places.now) }
        ensures { Filled from (to - from) self.old self.new }
    {
        self.len = 0;
        for number in from..to {
            self.append(number);
        }
    }
}
