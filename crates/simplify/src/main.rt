// Simplifies a network: reads an input of little-endian words, takes its image in, freezes its nodes, and writes the simplified image as
// little-endian words; or the one line of a refusal. The store is a scanned one with room for 128 clauses.
//
// Promises that it is safe and ends. Rests on `input` (bytes to an intake), `scanned` (the store) and `work` (the passes and the image).
#![tactic(auto)]

mod lent;

use lent::Lent;
use std::io::{BufWriter, Read, Write, writer};

// Writes words, little-endian.
fn write_words(rt: &HostRuntime, words: &[u32]) -> anyhow::Result<()> {
    let mut out = BufWriter::new(rt.alloc(), writer(rt))?;
    for word in words {
        out.write_all(&word.to_le_bytes())?;
    }
    out.flush()?;
    Ok(())
}

fn main(rt: HostRuntime) -> anyhow::Result<()> {
    let mut bytes = Vec::new(rt.alloc());
    // one byte more than an input may have, so that a longer one is seen
    let _ = rt.stdin().take(65537).read_to_end(&mut bytes)?;
    let mut lent = Lent::new(rt.alloc())?;
    match lent.simplified(bytes.as_slice()) {
        Ok(words) => write_words(&rt, words),
        Err(fault) => {
            println!(rt; "{fault}")?;
            Ok(())
        }
    }
}
