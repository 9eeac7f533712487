use image::fault::Fault;
use input::opening::open_bytes;
use intake::state::Intake;
use scanned::making::scanned;
use std::alloc::{AllocError, Global};
use store::store::Store;
use work::state::Work;

// The room of the store.
const ROOM: u32 = 128;

// The words that a scanned store of this room needs.
const STORE_WORDS: usize = 48 * 128 + 4096;

// The words that the passes need over it.
const WORKING_WORDS: usize = 64 * 128 + 8192;

// The most words of an image that is handed out: a header for 1,024 nodes, and a clause of at most 33 words for each that is kept and
// one of 2 words for each node with a value.
const OUT_WORDS: usize = 1026 + 33 * 128 + 2 * 1024;

// Simplifies the network of an intake over a store, and says how many words its image has at the front of `out`; or refuses it.
fn simplify<S: Store + Drop>(
    intake: Intake<'_>,
    store: S,
    working: &mut [u32],
    out: &mut [u32],
) -> Result<u32, Fault> {
    match Work::start(intake, store) {
        Ok(mut work) => work.simplify(working, out),
        Err((_, _, fault)) => Err(fault),
    }
}

// The words that a simplification is lent.
#[derive(Drop)]
pub struct Lent {
    store: Vec<u32>,
    working: Vec<u32>,
    out: Vec<u32>,
}

impl Lent {
    // Words enough for any input.
    pub fn new(heap: Global) -> Result<Lent, AllocError> {
        Ok(Lent {
            store: vec![in heap; 0u32; STORE_WORDS]?,
            working: vec![in heap; 0u32; WORKING_WORDS]?,
            out: vec![in heap; 0u32; OUT_WORDS]?,
        })
    }

    // The image of an input, simplified; or why it is refused.
    pub fn simplified(&mut self, bytes: &[u8]) -> Result<&[u32], Fault> {
        let mut words = [0u32; 16384];
        let mut intake = Intake::smallest();
        open_bytes(bytes, &mut words, &mut intake)?;
        let store = scanned(self.store.as_mut_slice(), ROOM);
        let working = self.working.as_mut_slice();
        let count = simplify(intake, store, working, self.out.as_mut_slice())?;
        Ok(self.out.get(..count as usize).unwrap_or(&[]))
    }
}
