// How the image is written.
ghost use Rattle.handing_out.specs.Writing.{Wrote};
ghost use Rattle.image.specs.Runs.{written};
ghost use Rattle.rules.specs.Calls.{count_out, handed_out, words_out};
ghost use Rattle.simplifier.specs.Shown.{work_of};
ghost use Rattle.std.specs.Prelude.{◌≡◌, ◌+◌, ◌^◌, ◌<◌, ◌≤◌, [], ◌∷◌, ◌++◌, length, drop};

use crate::measure::only_literal;
use simplifier::state::Simplifier;
use store::lists::Lists;

// Lent words, written one part after another: the next goes to the place `at`.
#[derive(Drop)]
struct Writer<'o> {
    words: &'o mut [u32],
    at: usize,
}

impl Writer<'_> {
    // Writes words.
    fn write(&mut self, words: &[u32])
        requires { self.old.at + length words.now ≤ length self.old.words.now }
        ensures { Wrote words.now self.old self.new }
    {
        let end = self.at + words.len();
        self.words[self.at..end].copy_from_slice(words);
        self.at = end;
    }

    // Where the written words end, behind `before` other words.
    fn end(&self, before: u32) -> u32
        requires { before + self.now.at < 2 ^ 32 }
        ensures { result ≡ before + self.now.at }
    {
        before + self.at as u32
    }

    // Writes a clause: its length, and then its literals.
    fn write_clause(&mut self, clause: &[u32])
        requires room { self.old.at + (1 + length clause.now) ≤ length self.old.words.now }
        requires short { length clause.now ≤ 32 }
        ensures { Wrote (length clause.now ∷ clause.now) self.old self.new }
    {
        self.write(&[clause.len() as u32]);
        self.write(clause);
    }

    // Writes the clauses of an own list.
    fn write_list<S: Lists>(&mut self, store: &S, l: u32)
        requires { self.old.at + length (written ((S.meaning store.now).own l)) ≤ length self.old.words.now }
        ensures { Wrote (written ((S.meaning store.now).own l)) self.old self.new }
    {
        let mut at = store.first(l);
        while let Some(h) = at {
            self.write_clause(store.clause(h));
            at = store.next(h);
        }
    }

    // Writes what is handed out of a node: the clauses with its positive literal first.
    fn write_node<S: Lists>(&mut self, s: &Simplifier<S>, node: u32)
        requires node { node ≤ s.now.top }
        requires room { self.old.at + length (written (handed_out (work_of S.meaning s.now []) node)) ≤ length self.old.words.now }
        ensures { Wrote (written (handed_out (work_of S.meaning s.now []) node)) self.old self.new }
    {
        match only_literal(s, node) {
            Some(literal) => self.write_clause(&[literal.word]),
            None => {
                self.write_list(&s.store, 2 * node);
                self.write_list(&s.store, 2 * node + 1);
            }
        }
    }
}

// Writes the image, in which so many clauses are counted.
pub(crate) fn write_image<S: Lists>(s: &Simplifier<S>, clauses: u32, out: &mut [u32])
    requires counted { clauses ≡ count_out (work_of S.meaning s.now []) }
    requires room { length (words_out (work_of S.meaning s.now [])) ≤ length out.old }
    ensures { out.new ≡ words_out (work_of S.meaning s.now []) ++ drop (length (words_out (work_of S.meaning s.now []))) out.old }
{
    let (header, runs) = out.split_at_mut(s.top as usize + 3);
    let mut header = Writer {
        words: header,
        at: 0,
    };
    let mut runs = Writer { words: runs, at: 0 };
    header.write(&[s.top, clauses, s.top + 3]);
    for node in 1..s.top + 1 {
        runs.write_node(s, node);
        header.write(&[runs.end(s.top + 3)]);
    }
}
