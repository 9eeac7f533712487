// The pass over the working words.
ghost use Rattle.std.specs.Prelude.{◌≡◌, ℕ, ◌+◌, ◌*◌, ◌≤◌, List, length, Err};
ghost use Rattle.image.specs.declared.fault.Fault.{Fault};
ghost use Rattle.elimination.specs.Outs.{Flagged, Answered, Made};
ghost use Rattle.elimination.specs.Words.{Roomy};
ghost use Rattle.rules.specs.Calls.{bve_answer};
ghost use Rattle.rules.specs.Index.{Indexed};
ghost use Rattle.simplifier.specs.Shown.{work_of};

use crate::attempt::attempt_all;
use image::fault::Fault;
use lemmas::Lemmas;
use simplifier::state::Simplifier;
use store::store::Store;
use waiting::Waiting;

// The words in parts, for so many clauses.
fn parts(words: &mut [u32], room: usize) -> Lemmas<'_>
    requires { 36 * room + 64 ≤ length words.now }
    ensures { Roomy room result }
{
    let (lengths, others) = words.split_at_mut(room);
    let (order, others) = others.split_at_mut(room);
    let (entries, others) = others.split_at_mut(room);
    let (places, literals) = others.split_at_mut(room);
    Lemmas {
        lengths,
        literals,
        order,
        entries,
        places,
    }
}

// Attempts the nodes 0 to the highest. The answer is how many nodes were taken out.
fn attempt_nodes<S: Store>(s: &mut Simplifier<S>, words: &mut [u32]) -> u32
    requires indexed { Indexed (S.meaning s.now.store) }
    requires enough { 64 * (S.meaning s.now.store).room + 8192 ≤ length words.now }
    ensures { Made S.meaning result s.old s.new }
{
    let room = s.store.room() as usize;
    let Some((mut waiting, others)) = Waiting::new(&s.store, s.top, words) else {
        return 0;
    };
    attempt_all(s, &mut waiting, &mut parts(others, room))
}

// The pass, unless it is refused with 10, as it is lent too few working words. Its answer is how many nodes were taken out, and how many
// clauses are live. Where an index stands already, no node waits. After a refusal nothing has changed.
pub fn bve_simplify<S: Store>(s: &mut Simplifier<S>, words: &mut [u32]) -> Result<(u32, u32), Fault>
    ensures makes { (out : List ℕ) → Flagged s.old.taken_out out → Answered S.meaning (bve_answer (length words.old) (work_of S.meaning s.old out)) s.new result }
    ensures refused { (f : Fault) → result ≡ Err f → (s.new ≡ s.old) × (words.new ≡ words.old) }
{
    s.check_lent(words)?;
    if s.store.indexed() {
        return Ok((0, s.store.live()));
    }
    s.store.index_on();
    let count = attempt_nodes(s, words);
    Ok((count, s.store.live()))
}
