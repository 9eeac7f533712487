// Replays inputs whose answers the reference gave: a line of standard input has the words of one input, in base ten. For each
// it prints the refusal, or `opened` with the lowest loose node. The recorded answers are the expected output.
#![tactic(auto)]

use input::opening::open_input;
use intake::state::Intake;
use std::alloc::Global;
use std::io::{BufRead, BufReader};

// The words of a line.
fn words_of(heap: Global, line: &str) -> anyhow::Result<Vec<u32>> {
    let mut words = Vec::new(heap);
    for number in line.split_whitespace().map(str::parse::<u32>) {
        words.push(number?)?;
    }
    Ok(words)
}

// Opens one input, and prints what came of it.
fn tell(rt: &HostRuntime, words: &[u32]) -> anyhow::Result<()> {
    let mut intake = Intake::smallest();
    match open_input(words, &mut intake) {
        Err(fault) => println!(rt; "{fault}")?,
        Ok(()) => match intake.loose() {
            Some(node) => println!(rt; "opened, loose {node}")?,
            None => println!(rt; "opened")?,
        },
    }
    Ok(())
}

fn main(rt: HostRuntime) -> anyhow::Result<()> {
    for line in BufReader::new(rt.alloc(), rt.stdin())?.lines(rt.alloc()) {
        let words = words_of(rt.alloc(), line?.as_str())?;
        tell(&rt, words.as_slice())?;
    }
    Ok(())
}
