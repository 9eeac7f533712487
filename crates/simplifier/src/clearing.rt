ghost use Rattle.std.specs.Prelude.{◌≡◌, ℕ, List, ◌==◌, slice_index_or, slice_set};
ghost use Rattle.rules.specs.Work.{clear, clear_all, storing};
ghost use Rattle.simplifier.specs.Marks.{marked};
ghost use Rattle.simplifier.specs.Shown.{work_of};

use crate::state::Simplifier;
use store::store::Store;

impl<S: Store> Simplifier<S> {
    // Takes the marked clauses out of the own list of l, from place 0 on. The last clause of the list comes to the place of one that
    // goes, and is looked at next. The word 1 marks the clause at its place; clauses past the words are not marked.
    pub fn clear(&mut self, l: u32, marks: &mut [u32])
        ensures makes { (out : List ℕ) → work_of S.meaning self.new out ≡ storing (work_of S.meaning self.old out) (clear l (marked marks.old) (S.meaning self.old.store)) }
        ensures kept { self.new.taken_out ≡ self.old.taken_out }
    {
        clear_marked(&mut self.store, l, marks);
    }

    // Takes every clause out of the own list of l.
    pub fn clear_all(&mut self, l: u32)
        ensures makes { (out : List ℕ) → work_of S.meaning self.new out ≡ storing (work_of S.meaning self.old out) (clear_all l (S.meaning self.old.store)) }
        ensures kept { self.new.taken_out ≡ self.old.taken_out }
    {
        clear_whole(&mut self.store, l);
    }
}

// Whether the word at a place marks it. No place past the words is marked.
fn is_marked(marks: &[u32], place: usize) -> bool
    ensures { result ≡ (slice_index_or marks.now place 0 == 1) }
{
    place < marks.len() && marks[place] == 1
}

// Gives a place the mark of another.
fn move_mark(marks: &mut [u32], from: usize, to: usize)
    ensures { marks.new ≡ slice_set marks.old to (slice_index_or marks.old from 0) }
{
    if to < marks.len() {
        marks[to] = if from < marks.len() { marks[from] } else { 0 };
    }
}

// Takes the marked clauses out of an own list of the store.
fn clear_marked<S: Store>(store: &mut S, l: u32, marks: &mut [u32])
    ensures { S.meaning store.new ≡ clear l (marked marks.old) (S.meaning store.old) }
{
    let mut left = marks.len().max(store.own_len(l) as usize);
    let mut i = 0;
    let mut at = store.first(l);
    while let Some(h) = at {
        if is_marked(marks, i) {
            left -= 1;
            move_mark(marks, left, i);
            at = store.remove_at(h).flatten();
        } else {
            at = store.next(h);
            i += 1;
        }
    }
}

// Takes every clause out of an own list of the store.
fn clear_whole<S: Store>(store: &mut S, l: u32)
    ensures { S.meaning store.new ≡ clear_all l (S.meaning store.old) }
{
    let mut first = store.first(l);
    while let Some(h) = first {
        first = store.remove_at(h).flatten();
    }
}
