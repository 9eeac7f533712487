// The answers of `lemmas` beside the recorded ones.
use crate::list::{clauses_of, simplified};
use std::alloc::Global;

// What came of the lists.
#[derive(Default, Drop)]
pub struct Counts {
    pub lists: u32,
    pub clauses: usize,
    pub left: usize,
    pub literals: usize,
    pub shorter: usize,
    pub differences: u32,
    // the number of the first list that came out otherwise
    pub first: Option<u32>,
}

impl Counts {
    // Counts what is left of a list.
    fn count(&mut self, came: &Vec<Vec<u32>>, left: &Vec<Vec<u32>>) {
        self.clauses = self.clauses.wrapping_add(came.len());
        self.left = self.left.wrapping_add(left.len());
        for clause in left {
            self.literals = self.literals.wrapping_add(clause.len());
            if !came.contains(clause) {
                self.shorter = self.shorter.wrapping_add(1);
            }
        }
    }

    // Asks for the list of a line, and notes whether what is left is what was recorded.
    pub fn ask_line(&mut self, alloc: Global, line: &str) -> anyhow::Result<()> {
        let (came, recorded) = line.split_once("=>").unwrap_or((line, ""));
        let came = clauses_of(alloc, came)?;
        let recorded = clauses_of(alloc, recorded)?;
        let left = simplified(alloc, came.as_slice())?;
        if let Some(left) = &left {
            self.count(&came, left);
        }
        if left != Some(recorded) {
            self.differences = self.differences.wrapping_add(1);
            self.first = self.first.or(Some(self.lists));
        }
        self.lists = self.lists.wrapping_add(1);
        Ok(())
    }
}
