// Clauses in words, and what one makes of another.
ghost use Rattle.lemmas.specs.Marks.{mark, Marked, MarksSpare};
ghost use Rattle.lemmas.specs.Turns.{Meets};
ghost use Rattle.lemmas.specs.Words.{lemma_at, Stands, Wrote};
ghost use Rattle.network.specs.Clauses.{without};
ghost use Rattle.std.specs.Prelude.{◌≡◌, ◌<◌, ◌⊎◌, ◌≢◌, ℕ, length};

use clause::{Lit, drop_literal, ordered_subsume_execpt_one};

// The words that each clause has for its literals.
pub(crate) const WIDTH: usize = 32;

// Clauses in lent words: clause k has its length at `lengths[k]` and its literals from `literals[32 * k]` on.
#[derive(Drop)]
pub(crate) struct Clauses<'w> {
    pub(crate) lengths: &'w mut [u32],
    pub(crate) literals: &'w mut [u32],
}

// What became of two clauses that met.
#[derive(Clone, Copy)]
pub(crate) enum Meeting {
    // The later one stays, as it was or a literal shorter.
    Stays,
    // The later one goes.
    Goes,
    // Both became one: the first lost a literal, and the later one goes.
    Joins,
}

// The mark of a clause: a word to which each literal adds the bit of its node modulo 32.
fn mark_of(clause: &[u32]) -> u32
    ensures { result ≡ mark clause.now }
{
    let mut mark: u32 = 0;
    for l in clause {
        mark |= 1 << (*l / 2 % 32);
    }
    mark
}

// A mark that lacks a bit of another spares the walk through the two clauses.
pub fn marks_spare()
    ensures { MarksSpare }
{}

// Each requires that its own clause stands, and the type cannot say so of all: other lent words may hold a clause that is too long.
impl Clauses<'_> {
    // The literals of a clause.
    fn literals_of(&self, number: u32) -> &[u32]
        requires { Stands self.now number }
        ensures { result.now ≡ lemma_at self.now number }
    {
        let from = WIDTH * number as usize;
        let len = self.lengths[number as usize] as usize;
        &self.literals[from..from + len]
    }

    // Takes a literal from a clause.
    fn lose(&mut self, number: u32, literal: Lit)
        requires { Stands self.old number }
        ensures wrote { Wrote (λ k. k ≡ number) self.old self.new }
        ensures lost { lemma_at self.new number ≡ without literal.word (lemma_at self.old number) }
    {
        let from = WIDTH * number as usize;
        let len = self.lengths[number as usize] as usize;
        let left = drop_literal(&mut self.literals[from..from + len], literal);
        self.lengths[number as usize] = left as u32;
    }

    // Writes the marks of the first `count` clauses.
    pub(crate) fn sign(&self, marks: &mut [u32], count: u32)
        requires room { length marks.old ≡ count }
        requires stand { (k : ℕ) → k < count → Stands self.now k }
        ensures { Marked self.now marks.new }
    {
        // Each k is the number of a clause and the place of its mark.
        for k in 0..count {
            marks[k as usize] = mark_of(self.literals_of(k));
        }
    }

    // One clause meets a later one: the later one goes or loses a literal, or both become one, or nothing happens.
    // Where the first has a node whose bit is missing in the later one's mark, nothing happens, and neither clause is read.
    pub(crate) fn meet(&mut self, marks: &mut [u32], first: u32, later: u32) -> Meeting
        requires first { Stands self.old first }
        requires later { Stands self.old later }
        requires apart { first ≢ later }
        requires first_in { first < length marks.old }
        requires later_in { later < length marks.old }
        requires marked { Marked self.old marks.old }
        ensures wrote { Wrote (λ k. (k ≡ first) ⊎ (k ≡ later)) self.old self.new }
        ensures met { Meets self.old self.new first later result }
        ensures marked { Marked self.new marks.new }
    {
        let mark = marks[first as usize];
        if mark & marks[later as usize] != mark {
            return Meeting::Stays;
        }
        let (part, differs) = ordered_subsume_execpt_one(
            self.literals_of(first),
            self.literals_of(later),
        );
        if part {
            return Meeting::Goes;
        }
        let Some(literal) = differs else {
            return Meeting::Stays;
        };
        if self.lengths[first as usize] == self.lengths[later as usize] {
            self.lose(first, literal);
            marks[first as usize] = mark_of(self.literals_of(first));
            return Meeting::Joins;
        }
        self.lose(later, literal.opposite());
        marks[later as usize] = mark_of(self.literals_of(later));
        Meeting::Stays
    }
}
