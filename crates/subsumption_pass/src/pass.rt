// The pass as a whole.
ghost use Rattle.rules.specs.Calls.{subsume_answer};
ghost use Rattle.rules.specs.Store.{count, up_to};
ghost use Rattle.rules.specs.Subsume.{walk};
ghost use Rattle.rules.specs.Work.{each};
ghost use Rattle.simplifier.specs.Shown.{work_of};
ghost use Rattle.std.specs.Prelude.{◌≡◌, ℕ, ◌+◌, ◌≤◌, List, length, OnErr};
ghost use Rattle.subsumption_pass.specs.Checks.{Surrounds};

use crate::checks::walk_own;
use image::fault::{Fault, Refusal};
use simplifier::state::Simplifier;
use store::store::Store;

// How many clauses the literal x stands in, as the index has them: its uses and its own clauses.
fn clauses_with<S: Store>(s: &S, x: u32) -> u32
    ensures sum { result ≡ count (S.meaning s.now) x + length ((S.meaning s.now).own x) }
    ensures few { result ≤ 8192 }
{
    s.count(x) + s.own_len(x)
}

// Writes for each node how many clauses stand around it.
fn surround<S: Store>(s: &S, around: &mut [u32])
    requires { 1024 ≤ length around.old }
    ensures { Surrounds (S.meaning s.now) around.new }
{
    for n in 0..1024u32 {
        around[n as usize] = clauses_with(s, 2 * n) + clauses_with(s, 2 * n + 1);
    }
}

// Each clause of the own lists of the literals below `end`, one list after another.
fn walk_all<S: Store>(s: &mut S, around: &mut [u32], end: u32)
    requires { Surrounds (S.meaning s.old) around.old }
    ensures { S.meaning s.new ≡ each walk (up_to end) (S.meaning s.old) }
{
    for l in 0..end {
        walk_own(s, around, l);
    }
}

// Each live clause is checked against those around the literal that has the fewest: a clause that is subsumed goes, one that is
// strengthened loses a literal, and two that differ in one literal become one, or go where that is their owner's. The answer is
// the number of live clauses. It is refused with 10, and nothing has changed, where the working words are too few.
pub fn subsume_simplify<S: Store>(s: &mut Simplifier<S>, words: &mut [u32]) -> Result<u32, Fault>
    ensures answer { (out : List ℕ) → (work_of S.meaning s.new out, result) ≡ subsume_answer (length words.old) (work_of S.meaning s.old out) }
    ensures taken_out { s.new.taken_out ≡ s.old.taken_out }
    ensures refused { OnErr result ((s.new ≡ s.old) × (words.new ≡ words.old)) }
{
    let need = 64 * s.store.room() + 8192;
    if words.len() < need as usize {
        return Err(Refusal::Short.at(need));
    }
    s.store.index_on();
    surround(&s.store, words);
    walk_all(&mut s.store, words, 2 * s.top + 2);
    s.store.index_off();
    Ok(s.store.live())
}
