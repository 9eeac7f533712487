// Looks at an image: reads an input of little-endian words, takes its image in, freezes its nodes, and prints what it opened,
// or the one line of a refusal. With the argument `passes` it then simplifies, and prints the network before and after each pass, so that
// it can be seen what was cut. The work is in `input`, `intake` and `work`; what is printed here is run, and not proved.
#![tactic(auto)]

mod passes;
mod text;

use crate::passes::print_passes;
use crate::text::print_network;
use anyhow::bail;
use input::opening::open_bytes;
use intake::state::Intake;
use std::env;
use std::io::Read;

// Whether the program's argument asks for the passes.
fn wants_passes(rt: &HostRuntime) -> anyhow::Result<bool> {
    match env::args(rt)?.nth(1) {
        Some(word) if word.as_str() == "passes" => Ok(true),
        Some(word) => bail!("the argument may be `passes`, not {word:?}"),
        None => Ok(false),
    }
}

fn main(rt: HostRuntime) -> anyhow::Result<()> {
    let passes = wants_passes(&rt)?;
    let mut bytes = Vec::new(rt.alloc());
    // one byte more than an input may have, so that a longer one is seen
    let _ = rt.stdin().take(65537).read_to_end(&mut bytes)?;
    let mut words = [0u32; 16384];
    let mut intake = Intake::smallest();
    if let Err(fault) = open_bytes(bytes.as_slice(), &mut words, &mut intake) {
        println!(rt; "{fault}")?;
        return Ok(());
    }
    print_network(&rt, &intake)?;
    if passes {
        print_passes(&rt, intake)?;
    }
    Ok(())
}
