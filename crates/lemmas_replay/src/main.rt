// Replays recorded simplifications of lists of clauses. Each line of the standard input is a list, its clauses apart by `;`, then `=>` and
// what the reference leaves of it, in its order. The program asks `lemmas`, and writes how many lists and clauses there were, how many
// clauses and literals are left, how many of those are shorter than they came, how many lists came out otherwise, and the first that did.
//
// Promises that it is safe and ends. Rests on `lemmas`.
#![tactic(auto)]

mod list;
mod replay;

use replay::Counts;

fn main(rt: HostRuntime) -> anyhow::Result<()> {
    let mut counts = Counts::default();
    for line in rt.lines(rt.alloc()) {
        counts.ask_line(rt.alloc(), line?.as_str())?;
    }
    println!(rt; "lists {}", counts.lists)?;
    println!(rt;
        "clauses {}, left {}, their literals {}",
        counts.clauses, counts.left, counts.literals
    )?;
    println!(rt; "left shorter than they came {}", counts.shorter)?;
    println!(rt; "differences {}", counts.differences)?;
    if let Some(first) = counts.first {
        println!(rt; "the first at list {first}")?;
    }
    Ok(())
}
