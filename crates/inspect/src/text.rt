use clause::Lit;
use image::reader::Run;
use intake::state::Intake;
use std::alloc::AllocError;
use std::io;

// Prints a clause, as `(!1 | 2)`.
pub fn print_clause(rt: &HostRuntime, clause: &[u32]) -> io::Result<()> {
    let mut before = "(";
    for l in clause {
        let literal = Lit::from(*l);
        print!(rt; "{before}{literal}")?;
        before = " | ";
    }
    print!(rt; ")")
}

// Prints the clauses of a node, one after another on a line.
fn print_node(rt: &HostRuntime, run: Run<'_>) -> io::Result<()> {
    let node = run.node;
    print!(rt; "node {node}:")?;
    for clause in run.clauses().map_while(Result::ok) {
        print!(rt; " ")?;
        print_clause(rt, clause)?;
    }
    println!(rt; "")
}

// Prints the nodes behind a word, on a line.
pub fn print_nodes(rt: &HostRuntime, word: &str, nodes: &[u32]) -> io::Result<()> {
    print!(rt; "{word}")?;
    for n in nodes {
        print!(rt; " {n}")?;
    }
    println!(rt; "")
}

// The frozen nodes of an intake.
fn frozen_nodes(rt: &HostRuntime, intake: &Intake<'_>) -> Result<Vec<u32>, AllocError> {
    (0..=intake.top())
        .filter(|node| intake.is_frozen(*node))
        .collect(rt.alloc())
}

// Prints the counts of an intake, its frozen and its loose nodes, and the clauses of every node that has some.
pub fn print_network(rt: &HostRuntime, intake: &Intake<'_>) -> anyhow::Result<()> {
    let top = intake.top();
    let count = intake.clause_count();
    println!(rt; "nodes {top}")?;
    println!(rt; "clauses {count}")?;
    print_nodes(rt, "frozen", frozen_nodes(rt, intake)?.as_slice())?;
    print_nodes(rt, "loose", intake.loose_nodes(rt.alloc())?.as_slice())?;
    for node in 1..=top {
        let run = intake.run(node);
        if !run.words.is_empty() {
            print_node(rt, run)?;
        }
    }
    Ok(())
}
