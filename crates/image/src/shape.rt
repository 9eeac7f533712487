ghost use Rattle.std.specs.Prelude.{◌≡◌, ℕ, Bool, List};
ghost use Rattle.image.specs.Runs.{clauses_pass};
ghost use Rattle.network.specs.Clauses.{in_order, owned, owner};

use crate::fault::{Fault, Refusal};
use crate::reader::Run;

// A test that every clause of a run has to pass. No closure: the member `pass` names the test in what a walk promises.
pub trait ClauseTest {
    ghost pass: { Self → List ℕ → Bool };

    fn passes(&self, clause: &[u32]) -> bool
        ensures { result ≡ pass self.now clause.now };
}

// The nodes that a clause names rise strictly. A literal's node is its half: this crate does not rest on `clause`.
#[derive(Clone, Copy)]
pub struct InOrder;

impl ClauseTest for InOrder {
    ghost pass = { λ _. in_order };

    fn passes(&self, clause: &[u32]) -> bool {
        clause.is_sorted_by(|a, b| *a / 2 < *b / 2)
    }
}

// The last literal of a clause is of this node.
#[derive(Clone, Copy)]
pub struct OwnedBy {
    pub node: u32,
}

impl ClauseTest for OwnedBy {
    ghost pass = { λ t. owned t.node };

    fn passes(&self, clause: &[u32]) -> bool {
        owner_of(clause) == self.node
    }
}

// The node of a clause's last literal, its half; 0 for the empty clause, as the definition `owner` has it.
pub fn owner_of(clause: &[u32]) -> u32
    ensures { result ≡ owner clause.now }
{
    match clause {
        [.., last] => *last / 2,
        [] => 0,
    }
}

// Refuses a run with `fault` at the first clause that does not pass the test.
pub fn check_clauses<T: ClauseTest>(run: Run<'_>, test: &T, fault: Fault) -> Result<(), Fault>
    ensures { result ≡ clauses_pass (T.pass test.now) fault run.entry.node run.entry.words.now }
{
    let mut walk = run.fitting_clauses();
    while let Some(clause) = walk.next() {
        if !test.passes(clause) {
            return Err(fault);
        }
    }
    if !walk.left.is_empty() {
        return Err(Refusal::Cut.at(run.node));
    }
    Ok(())
}
