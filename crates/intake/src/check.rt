ghost use Rattle.image.specs.Headers.{headed};
ghost use Rattle.image.specs.declared.fault.Fault.{Fault as FaultT};
ghost use Rattle.intake.specs.Accepted.{Answers as Means};
ghost use Rattle.intake.specs.Answers.{node_answer, nodes_answer, take_in_answer};
ghost use Rattle.std.specs.Prelude.{◌≡◌, true, Result as ResultT, slice_index};

use crate::whole::WholeRun;
use image::fault::{Fault, Refusal};
use image::header::{check_head, run_of};
use image::reader::Run;
use image::shape::{InOrder, OwnedBy, check_clauses};

// The number of a node's clauses, unless its run has a fault.
fn check_node(run: Run<'_>) -> Result<usize, Fault>
    ensures { result ≡ node_answer run.entry.node run.entry.words.now }
{
    let node = run.node;
    let count = run.count_clauses()?;
    check_clauses(run, &InOrder, Refusal::Order.at(node))?;
    check_clauses(run, &OwnedBy { node }, Refusal::Owner.at(node))?;
    WholeRun { run }.check_rows()?;
    Ok(count)
}

// The number of clauses of all nodes, unless one has a fault.
fn check_nodes(words: &[u32], top: u32) -> Result<usize, Fault>
    requires head { headed words.now ≡ true }
    requires all { top ≡ slice_index words.now 0 }
    ensures { result ≡ nodes_answer words.now top }
{
    // A `for` with `?`, which ends at the first fault; a `try_fold` would say no more.
    let mut count = 0;
    for node in 1..=top {
        count += check_node(run_of(words, node))?;
    }
    Ok(count)
}

// Whether an image is right.
pub(crate) fn check_image(words: &[u32]) -> Result<(), Fault>
    ensures answer { result ≡ take_in_answer words.now }
    ensures means { Means words.now result }
    ensures only { (s : ResultT (Unit {0}) FaultT) → Means words.now s → result ≡ s }
{
    let top = check_head(words)?;
    let count = check_nodes(words, top)?;
    if words[1] as usize != count {
        return Err(Refusal::Count.at(0));
    }
    Ok(())
}
