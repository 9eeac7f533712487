ghost use Rattle.arrayvec.specs.ArrayVec.{array_vec_len};
ghost use Rattle.image.specs.Faults.{fault};
ghost use Rattle.image.specs.Runs.{clauses, whole};
ghost use Rattle.network.specs.Rows.{lower as lower_of, noted, noted_in};
ghost use Rattle.std.specs.Prelude.{◌≡◌, ◌<◌, ◌≤◌, true, false, ◌⊎◌, [], length, Ok, Err};

use crate::fault::{Fault, Refusal};
use crate::reader::Run;
use arrayvec::ArrayVec;

// The lower nodes that the clauses of a node name, at most eight.
#[derive(Drop)]
pub struct Lower(pub(crate) ArrayVec<u32, 8>);

impl Lower {
    // No node.
    fn none() -> Lower
        ensures { result.0.items ≡ [] }
    {
        Lower(ArrayVec::new())
    }

    // The nodes, in the order in which they are named.
    pub fn as_slice(&self) -> &[u32]
        ensures nodes { result.now ≡ self.now.0.items }
        ensures few { length result.now ≤ 8 }
    {
        self.0.as_slice()
    }

    // Notes a node that a clause of `owner` names; refused where there are eight others already.
    fn note(&mut self, node: u32, owner: u32) -> Result<(), Fault>
        ensures { elim result [ Ok _ ↦ self.new.0.items ≡ noted owner self.old.0.items node | Err f ↦ (f ≡ fault 5 owner) × (8 < length (noted owner self.old.0.items node)) ] }
    {
        if node == 0 || node == owner || self.0.contains(&node) {
            return Ok(());
        }
        if self.0.is_full() {
            return Err(Refusal::Wide.at(owner));
        }
        self.0.push(node);
        Ok(())
    }

    // Notes the nodes that a clause of `owner` names, each the half of a literal: this crate does not rest on `clause`.
    fn note_clause(&mut self, clause: &[u32], owner: u32) -> Result<(), Fault>
        ensures { elim result [ Ok _ ↦ self.new.0.items ≡ noted_in owner self.old.0.items clause.now | Err f ↦ (f ≡ fault 5 owner) × (8 < length (noted_in owner self.old.0.items clause.now)) ] }
    {
        for l in clause {
            self.note(*l / 2, owner)?;
        }
        Ok(())
    }
}

// The lower nodes that the clauses of a run name besides 0; refused if there are more than eight.
pub fn lower_nodes(run: Run<'_>) -> Result<Lower, Fault>
    ensures { elim result [ Ok low ↦ (whole run.entry.words.now ≡ true) × (low.0.items ≡ lower_of run.entry.node (clauses run.entry.words.now)) | Err f ↦ ((f ≡ fault 5 run.entry.node) × (8 < length (lower_of run.entry.node (clauses run.entry.words.now)))) ⊎ ((f ≡ fault 2 run.entry.node) × (whole run.entry.words.now ≡ false)) ] }
{
    let mut low = Lower::none();
    let mut walk = run.fitting_clauses();
    while let Some(clause) = walk.next() {
        low.note_clause(clause, run.node)?;
    }
    if !walk.left.is_empty() {
        return Err(Refusal::Cut.at(run.node));
    }
    Ok(low)
}
