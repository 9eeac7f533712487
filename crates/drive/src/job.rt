// Jobs: fields apart by `;`, each a name, `:` and a value, as
// `frozen: 1 2 4; image: 4 5 7 ..; C: 128; store: indexed; calls: const bve finalize:20`.
use crate::call::Call;
use anyhow::bail;
use std::alloc::Global;

// Which store a work is over.
#[derive(Clone, Copy)]
pub enum StoreKind {
    Scanned,
    Indexed,
}

impl StoreKind {
    // The store of a name.
    pub fn read(name: &str) -> anyhow::Result<StoreKind> {
        match name {
            "scanned" => Ok(StoreKind::Scanned),
            "indexed" => Ok(StoreKind::Indexed),
            _ => bail!("no store has the name {name}"),
        }
    }
}

// What a work is made of, and the calls on it.
#[derive(Drop)]
pub struct Job {
    pub frozen: Vec<u32>,
    pub image: Vec<u32>,
    pub room: u32,
    pub store: StoreKind,
    pub calls: Vec<Call>,
}

// The numbers of a text.
fn numbers(heap: Global, text: &str) -> anyhow::Result<Vec<u32>> {
    text.split_whitespace()
        .map(|number| Ok(number.parse::<u32>()?))
        .try_collect(heap)
}

// The calls of a text.
fn calls(heap: Global, text: &str) -> anyhow::Result<Vec<Call>> {
    text.split_whitespace().map(Call::read).try_collect(heap)
}

impl Job {
    // The job of a line, over the usual store if it names none.
    pub fn read(heap: Global, line: &str, usual: StoreKind) -> anyhow::Result<Job> {
        let mut job = Job {
            frozen: Vec::new(heap),
            image: Vec::new(heap),
            room: 128,
            store: usual,
            calls: Vec::new(heap),
        };
        for field in line.split(';') {
            if let Some((name, value)) = field.split_once(':') {
                job.set(heap, name.trim(), value.trim())?;
            }
        }
        Ok(job)
    }

    // Sets a field.
    fn set(&mut self, heap: Global, name: &str, value: &str) -> anyhow::Result<()> {
        match name {
            "frozen" => self.frozen = numbers(heap, value)?,
            "image" => self.image = numbers(heap, value)?,
            "C" => self.room = value.parse::<u32>()?,
            "store" => self.store = StoreKind::read(value)?,
            "calls" => self.calls = calls(heap, value)?,
            _ => bail!("no field has the name {name}"),
        }
        Ok(())
    }
}
