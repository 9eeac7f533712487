ghost use Rattle.image.specs.Faults.{fault};
ghost use Rattle.image.specs.Runs.{ReadsFitting, Reads, clauses, left_of, whole};
ghost use Rattle.std.specs.Prelude.{◌≡◌, length, if◌then◌else◌, Ok, Err};

use crate::fault::{Fault, Refusal};

// The words that stand for the clauses of a node, each clause as its length and then its literals; any words at all.
#[derive(Clone, Copy)]
pub struct Run<'i> {
    pub words: &'i [u32],
    pub node: u32,
}

impl<'i> Run<'i> {
    // The clauses, one after another.
    pub fn clauses(self) -> Clauses<'i>
        ensures { result.left ≡ self.entry }
    {
        Clauses { left: self }
    }

    // The clauses up to the first length that is 0 or passes the end; `left` tells afterwards whether there is one.
    pub fn fitting_clauses(self) -> FittingClauses<'i>
        ensures { result.left ≡ self.entry.words }
    {
        FittingClauses { left: self.words }
    }

    // How many clauses there are; refused where a length is 0 or passes the end.
    pub fn count_clauses(self) -> Result<usize, Fault>
        ensures { result ≡ (if whole self.entry.words.now then Ok (length (clauses self.entry.words.now)) else Err (fault 2 self.entry.node)) }
    {
        let mut count = 0;
        let mut walk = self.fitting_clauses();
        while let Some(_) = walk.next() {
            count += 1;
        }
        if !walk.left.is_empty() {
            return Err(Refusal::Cut.at(self.node));
        }
        Ok(count)
    }
}

// A walk over the clauses of a run; `left` is what follows the last one given. At a length that is 0 or passes the end it gives the fault,
// and then nothing.
#[derive(Drop)]
pub struct Clauses<'i> {
    pub left: Run<'i>,
}

impl<'i> Iterator for Clauses<'i> {
    ghost use Rattle.std.specs.Iterator.{at_most};

    type Item = Result<&'i [u32], Fault>;

    ghost next_gives = { Reads };

    ghost remaining = { λ s. at_most (length (left_of s)) };

    fn next(&mut self) -> Option<Result<&'i [u32], Fault>> {
        let mut walk = self.left.fitting_clauses();
        let found = walk.next();
        self.left.words = walk.left;
        if let Some(clause) = found {
            return Some(Ok(clause));
        }
        if self.left.words.is_empty() {
            return None;
        }
        self.left.words = &[];
        Some(Err(Refusal::Cut.at(self.left.node)))
    }
}

// A walk over the clauses of a run that gives no fault; `left` is what follows the last one given. It ends where nothing is left, and at a
// length that is 0 or passes the end, which then stays in `left`: a loop that asks for it afterwards is a `while let`. Its items are slices
// alone. Those of `Clauses`, a slice or a fault, pass through memory at each step, which took up to twice the time where they are many.
#[derive(Drop)]
pub struct FittingClauses<'i> {
    pub left: &'i [u32],
}

impl<'i> Iterator for FittingClauses<'i> {
    ghost use Rattle.std.specs.Iterator.{at_most};

    type Item = &'i [u32];

    ghost next_gives = { ReadsFitting };

    ghost remaining = { λ s. at_most (length s.left.now) };

    fn next(&mut self) -> Option<&'i [u32]> {
        let [len, rest @ ..] = self.left else {
            return None;
        };
        let len = *len as usize;
        if len == 0 || len > rest.len() {
            return None;
        }
        let (clause, after) = rest.split_at(len);
        self.left = after;
        Some(clause)
    }
}
