// Replays recorded answers. Each line of the standard input is a pair of clauses with known values and with what the reference answers: whether the
// first subsumes the second, the pair of `ordered_subsume_execpt_one`, the simplified clause, the resolvent, the clause without a literal, and the
// signatures with their tests. The program asks `clause`, and writes how many there were of each kind, how many answers differ, and the first that does.
//
// Promises that it is safe and ends. Rests on `clause`.
#![tactic(auto)]

mod asked;
mod table;

use asked::Counts;

fn run(rt: &HostRuntime) -> anyhow::Result<()> {
    let mut counts = Counts::default();
    for line in rt.lines(rt.alloc()) {
        let line = line?;
        counts.ask_line(line.as_bytes());
    }
    println!(rt; "pairs {}", counts.pairs)?;
    println!(rt;
        "subsumed {}, but for one literal {}",
        counts.subsumed, counts.odd
    )?;
    println!(rt;
        "simplified {}, gone {}, literals left {}",
        counts.simplified, counts.gone, counts.left
    )?;
    println!(rt;
        "resolved {}, tautologies {}",
        counts.resolved, counts.tautologies
    )?;
    println!(rt; "spared by signatures {}", counts.spared)?;
    println!(rt; "differences {}", counts.differences)?;
    if let Some((pair, what)) = counts.first {
        println!(rt; "the first at pair {pair}: {what}")?;
    }
    Ok(())
}

fn main(rt: HostRuntime) -> anyhow::Result<()> {
    run(&rt)
}
