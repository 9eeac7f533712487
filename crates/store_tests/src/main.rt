// Drives a scanned and an indexed store by the same random changes, by place and by handle, and compares after each what they answer
// and everything that can be asked of them: the own list of each literal clause by clause, its uses and their number, the place of
// each clause, how many are live, and the index. The program writes how many changes of each kind were made and how many answered no,
// how many clauses and uses were compared, and how many differences there were.
//
// Promises that it is safe and ends. Rests on `scanned` and `indexed`; what it does not see, the contracts of `store` say.
#![tactic(auto)]

mod changes;
mod random;
mod shown;

use changes::{Change, KINDS, NAMES};
use indexed::making::indexed;
use random::Random;
use scanned::making::scanned;
use shown::{Seen, shown};
use std::alloc::Global;
use store::store::Store;

// How many changes are tried.
const CHANGES: u32 = 4000;

// The room of both stores, few enough that entries are refused.
const ROOM: u32 = 32;

// What came of the changes.
#[derive(Drop)]
struct Counts {
    made: [u32; KINDS],
    refused: [u32; KINDS],
    clauses: u64,
    uses: u64,
    differences: u32,
}

impl Counts {
    // One more change of a kind, made or answered no.
    fn note(&mut self, kind: usize, made: bool) {
        let counts = if made {
            &mut self.made
        } else {
            &mut self.refused
        };
        if let Some(count) = counts.get_mut(kind) {
            *count = count.wrapping_add(1);
        }
    }

    // What both stores showed after a change.
    fn compare(&mut self, a: Seen, b: Seen) {
        self.clauses = self.clauses.wrapping_add(a.clauses as u64);
        self.uses = self.uses.wrapping_add(a.uses as u64);
        if a.numbers != b.numbers {
            self.differences = self.differences.wrapping_add(1);
        }
    }
}

// Tries the changes on both stores.
fn drive<S: Store, T: Store>(heap: Global, a: &mut S, b: &mut T) -> anyhow::Result<Counts> {
    let mut counts = Counts {
        made: [0; KINDS],
        refused: [0; KINDS],
        clauses: 0,
        uses: 0,
        differences: 0,
    };
    let mut random = Random::new();
    for _step in 0..CHANGES {
        let change = Change::next(&mut random);
        let answer = change.try_on(a);
        if change.try_on(b) != answer {
            counts.differences = counts.differences.wrapping_add(1);
        }
        counts.note(change.kind(), answer.made);
        counts.compare(shown(heap, a)?, shown(heap, b)?);
    }
    Ok(counts)
}

fn main(rt: HostRuntime) -> anyhow::Result<()> {
    let heap = rt.alloc();
    let mut a = vec![in heap; 0u32; 48 * 32 + 4096]?;
    let mut b = vec![in heap; 0u32; 120 * 32 + 16384]?;
    let mut a = scanned(a.as_mut_slice(), ROOM);
    let mut b = indexed(b.as_mut_slice(), ROOM);
    let Counts {
        made,
        refused,
        clauses,
        uses,
        differences,
    } = drive(heap, &mut a, &mut b)?;
    for kind in 0..KINDS {
        println!(rt;
            "{}: {} made, {} answered no",
            NAMES[kind], made[kind], refused[kind]
        )?;
    }
    println!(rt; "compared {clauses} clauses and {uses} uses")?;
    println!(rt; "differences {differences}")?;
    Ok(())
}
