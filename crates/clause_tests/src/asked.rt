// The answers of `clause` beside the recorded ones.
use crate::table::{Row, numbers, read_row};
use clause::{Lbool, Lit, Signature};

// The words lent for a clause here, and the nodes with a value.
const MOST: usize = 32;

// How many answers there were of each kind.
#[derive(Default, Drop)]
pub struct Counts {
    pub pairs: u32,
    pub subsumed: u32,
    pub odd: u32,
    pub simplified: u32,
    pub gone: u32,
    pub left: usize,
    pub resolved: u32,
    pub tautologies: u32,
    pub spared: u32,
    pub differences: u32,
    // the number of the first pair with another answer than the recorded one, and what was asked
    pub first: Option<(u32, &'static str)>,
}

// Whether a clause of `n` words at the front of `out`, or none, is the recorded one.
fn agrees(n: Option<usize>, out: &[u32], recorded: Option<&[u32]>) -> bool {
    match (n, recorded) {
        (Some(n), Some(clause)) => n <= out.len() && &out[..n] == clause,
        (None, None) => true,
        _ => false,
    }
}

// What a recorded value says.
fn value(recorded: u32) -> Lbool {
    u8::try_from(recorded).map_or(Lbool::Unknown, Lbool::from)
}

// The recorded values, by node.
fn values_of(row: &Row) -> [Lbool; MOST] {
    let mut values = [Lbool::Unknown; MOST];
    for (known, recorded) in values.iter_mut().zip(row.values) {
        *known = value(*recorded);
    }
    values
}

// Drops a literal from a clause, copied to the front of `out`, and says how many are left: none where `out` is shorter.
fn dropped(clause: &[u32], lost: Lit, out: &mut [u32]) -> usize {
    match out.get_mut(..clause.len()) {
        Some(out) => {
            out.copy_from_slice(clause);
            clause::drop_literal(out, lost)
        }
        None => 0,
    }
}

impl Counts {
    // Notes an answer that is not the recorded one.
    fn note(&mut self, agrees: bool, what: &'static str) {
        if !agrees {
            self.differences = self.differences.wrapping_add(1);
            if self.first.is_none() {
                self.first = Some((self.pairs, what));
            }
        }
    }

    fn ask_subsumption(&mut self, row: &Row) {
        let part = clause::ordered_subsume(row.a, row.b);
        self.subsumed = self.subsumed.wrapping_add(u32::from(part));
        self.note(part == row.part, "ordered_subsume");
        let but_one = clause::ordered_subsume_execpt_one(row.a, row.b);
        self.odd = self.odd.wrapping_add(u32::from(but_one.1.is_some()));
        self.note(Some(but_one) == row.but_one, "ordered_subsume_execpt_one");
    }

    fn ask_simplification(&mut self, row: &Row) {
        let values = values_of(row);
        let mut out = [0u32; MOST];
        let n = clause::ordered_simp(row.a, &values, &mut out);
        match n {
            Some(n) => {
                self.simplified = self.simplified.wrapping_add(1);
                self.left = self.left.wrapping_add(n);
            }
            None => self.gone = self.gone.wrapping_add(1),
        }
        self.note(agrees(n, &out, row.simplified), "ordered_simp");
    }

    fn ask_resolvent(&mut self, row: &Row) {
        let Some(pivot) = row.pivot else {
            return;
        };
        let mut out = [0u32; 2 * MOST];
        let n = clause::ordered_resolvent(row.a, row.b, pivot, &mut out);
        self.resolved = self.resolved.wrapping_add(1);
        self.tautologies = self.tautologies.wrapping_add(u32::from(n.is_none()));
        self.note(agrees(n, &out, row.resolvent), "ordered_resolvent");
    }

    fn ask_loss(&mut self, row: &Row) {
        let Some(lost) = row.lost else {
            return;
        };
        let mut out = [0u32; MOST];
        let n = dropped(row.a, lost, &mut out);
        self.note(agrees(Some(n), &out, Some(row.rest)), "drop_literal");
    }

    fn ask_signatures(&mut self, row: &Row) {
        let a = Signature::of(row.a);
        let b = Signature::of(row.b);
        self.note(Some((a, b)) == row.signatures, "signature");
        self.note(a.may_subsume(b) == row.may_subsume, "may_subsume");
        let fits = a.may_fit(b);
        self.spared = self.spared.wrapping_add(u32::from(!fits));
        self.note(fits == row.may_fit, "may_fit");
    }

    // Asks for each answer to a pair.
    fn ask(&mut self, row: &Row) {
        self.ask_subsumption(row);
        self.ask_simplification(row);
        self.ask_resolvent(row);
        self.ask_loss(row);
        self.ask_signatures(row);
    }

    // Asks what a line of the table asks.
    pub fn ask_line(&mut self, line: &[u8]) {
        let mut words = [0u32; 8 * MOST];
        let n = numbers(line, &mut words);
        match read_row(&words[..n]) {
            Ok(row) => self.ask(&row),
            Err(flaw) => self.note(false, flaw),
        }
        self.pairs = self.pairs.wrapping_add(1);
    }
}
