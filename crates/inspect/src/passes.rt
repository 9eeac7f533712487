// The passes of a simplification, as text.
ghost use Rattle.std.specs.Prelude.{◌≤◌};

use crate::text::{print_clause, print_nodes};
use image::fault::Fault;
use intake::state::Intake;
use scanned::making::scanned;
use std::alloc::{AllocError, Global};
use std::io;
use store::lists::Lists;
use store::store::Store;
use work::state::Work;

// The room of the store, which is the largest, and the words that it and the passes need.
const ROOM: u32 = 4096;

const STORE_WORDS: usize = 48 * 4096 + 4096;

const WORKING_WORDS: usize = 64 * 4096 + 8192;

// Whether a node has clauses.
fn has_clauses<S: Lists>(store: &S, node: u32) -> bool
    requires { node ≤ 1023 }
{
    store.own_len(2 * node) != 0 || store.own_len(2 * node + 1) != 0
}

// How many nodes have clauses, node 0 among them.
fn count_nodes<S: Store>(work: &Work<'_, S>) -> u32 {
    let mut nodes = 0u32;
    for node in 0..=work.top() {
        if has_clauses(work.store(), node) {
            nodes = nodes.wrapping_add(1);
        }
    }
    nodes
}

// Prints the clauses of an own list, each behind a space.
fn print_own<S: Lists>(rt: &HostRuntime, store: &S, l: u32) -> io::Result<()> {
    let mut at = store.first(l);
    for _place in 0..store.own_len(l) {
        let Some(h) = at else {
            break;
        };
        print!(rt; " ")?;
        print_clause(rt, store.clause(h))?;
        at = store.next(h);
    }
    Ok(())
}

// Prints the clauses of a node on a line, unless it has none.
fn print_node<S: Lists>(rt: &HostRuntime, store: &S, node: u32) -> io::Result<()>
    requires { node ≤ 1023 }
{
    if !has_clauses(store, node) {
        return Ok(());
    }
    print!(rt; "node {node}:")?;
    print_own(rt, store, 2 * node)?;
    print_own(rt, store, 2 * node + 1)?;
    println!(rt; "")
}

// The nodes that were taken out.
fn taken_out<S: Store>(heap: Global, work: &Work<'_, S>) -> Result<Vec<u32>, AllocError> {
    (0..=work.top())
        .filter(|node| work.is_taken_out(*node))
        .collect(heap)
}

// Prints the known values on a line, each as the literal that is true.
fn print_values<S: Store>(rt: &HostRuntime, work: &Work<'_, S>) -> io::Result<()> {
    print!(rt; "known")?;
    for node in 0..=work.top() {
        let value = work.value(node);
        if value.is_true() {
            print!(rt; " {node}")?;
        } else if value.is_false() {
            print!(rt; " !{node}")?;
        }
    }
    println!(rt; "")
}

// Prints the network as a call left it: how many nodes have clauses and how many clauses are live, the nodes that were taken out, the
// known values, and the clauses of every node that has some.
fn print_work<S: Store>(rt: &HostRuntime, call: &str, work: &Work<'_, S>) -> anyhow::Result<()> {
    let nodes = count_nodes(work);
    let live = work.live();
    println!(rt; "{call}: nodes {nodes}, live clauses {live}")?;
    print_nodes(rt, "taken out", taken_out(rt.alloc(), work)?.as_slice())?;
    print_values(rt, work)?;
    for node in 0..=work.top() {
        print_node(rt, work.store(), node)?;
    }
    Ok(())
}

// Prints why a pass was refused, if it was, and the network as it left it.
fn print_pass<S: Store>(
    rt: &HostRuntime,
    pass: &str,
    refused: Option<Fault>,
    work: &Work<'_, S>,
) -> anyhow::Result<()> {
    if let Some(fault) = refused {
        println!(rt; "{pass} {fault}")?;
    }
    print_work(rt, pass, work)
}

// Does the passes in turn, and prints the network before the first and after each.
fn print_each<S: Store>(rt: &HostRuntime, work: &mut Work<'_, S>) -> anyhow::Result<()> {
    let mut lent = vec![in rt.alloc(); 0u32; WORKING_WORDS]?;
    let words = lent.as_mut_slice();
    print_work(rt, "start", work)?;
    let refused = work.const_simplify(words).err();
    print_pass(rt, "const_simplify", refused, work)?;
    let refused = work.bve_simplify(words).err();
    print_pass(rt, "bve_simplify", refused, work)?;
    let refused = work.subsume_simplify(words).err();
    print_pass(rt, "subsume_simplify", refused, work)
}

// Starts a work of the intake over a store, and prints its passes; or why it cannot be started.
fn print_over<S: Store + Drop>(
    rt: &HostRuntime,
    intake: Intake<'_>,
    store: S,
) -> anyhow::Result<()> {
    match Work::start(intake, store) {
        Ok(mut work) => print_each(rt, &mut work),
        Err((_, _, fault)) => {
            println!(rt; "start {fault}")?;
            Ok(())
        }
    }
}

// Prints the passes over the network of an intake.
pub fn print_passes(rt: &HostRuntime, intake: Intake<'_>) -> anyhow::Result<()> {
    let mut words = vec![in rt.alloc(); 0u32; STORE_WORDS]?;
    print_over(rt, intake, scanned(words.as_mut_slice(), ROOM))
}
