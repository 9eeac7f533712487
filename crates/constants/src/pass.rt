ghost use Rattle.std.specs.Prelude.{◌≡◌, ℕ, ◌*◌, ◌≤◌, List, length, Err};
ghost use Rattle.image.specs.declared.fault.Fault.{Fault};
ghost use Rattle.rules.specs.Calls.{const_answer};
ghost use Rattle.rules.specs.Const.{const_drop, const_node};
ghost use Rattle.rules.specs.Work.{each, nodes_of};
ghost use Rattle.simplifier.specs.Shown.{work_of};

use crate::judging::judge_first;
use image::fault::Fault;
use simplifier::state::Simplifier;
use store::store::Store;

// The turn of a node: its clauses as they stand now are judged, and those that go leave at its end.
fn take_turn<S: Store>(s: &mut Simplifier<S>, n: u32, words: &mut [u32])
    requires small { n ≤ 1023 }
    requires enough { 2 * (S.meaning s.now.store).room ≤ length words.now }
    ensures makes { (out : List ℕ) → work_of S.meaning s.new out ≡ const_node n (work_of S.meaning s.old out) }
    ensures kept { s.new.taken_out ≡ s.old.taken_out }
{
    let positive = 2 * n;
    let negative = positive + 1;
    let first = s.store.own_len(positive) as usize;
    let both = first + s.store.own_len(negative) as usize;
    let (marks, others) = words[..both].split_at_mut(first);
    judge_first(s, positive, marks);
    judge_first(s, negative, others);
    s.clear(positive, marks);
    s.clear(negative, others);
}

// A node with a known value loses its clauses.
fn drop_valued<S: Store>(s: &mut Simplifier<S>, n: u32)
    requires { n ≤ 1023 }
    ensures makes { (out : List ℕ) → work_of S.meaning s.new out ≡ const_drop n (work_of S.meaning s.old out) }
    ensures kept { s.new.taken_out ≡ s.old.taken_out }
{
    if !s.values[n as usize].is_none() {
        s.clear_all(2 * n);
        s.clear_all(2 * n + 1);
    }
}

// The turns of the nodes from 1 on.
fn take_turns<S: Store>(s: &mut Simplifier<S>, words: &mut [u32])
    requires { 2 * (S.meaning s.now.store).room ≤ length words.now }
    ensures makes { (out : List ℕ) → work_of S.meaning s.new out ≡ each const_node (nodes_of (work_of S.meaning s.old out)) (work_of S.meaning s.old out) }
    ensures kept { s.new.taken_out ≡ s.old.taken_out }
{
    for n in 1..s.top + 1 {
        take_turn(s, n, words);
    }
}

// The nodes with known values lose their clauses, from 1 on.
fn drop_all_valued<S: Store>(s: &mut Simplifier<S>)
    ensures makes { (out : List ℕ) → work_of S.meaning s.new out ≡ each const_drop (nodes_of (work_of S.meaning s.old out)) (work_of S.meaning s.old out) }
    ensures kept { s.new.taken_out ≡ s.old.taken_out }
{
    for node in 1..s.top + 1 {
        drop_valued(s, node);
    }
}

// The pass, unless it is refused: with 10 where it is lent too few working words, with 13 where more than half of the room is live. Its
// answer is the number of live clauses. After a refusal nothing has changed.
pub fn const_simplify<S: Store>(s: &mut Simplifier<S>, words: &mut [u32]) -> Result<u32, Fault>
    ensures makes { (out : List ℕ) → (work_of S.meaning s.new out, result) ≡ const_answer (length words.old) (work_of S.meaning s.old out) }
    ensures kept { s.new.taken_out ≡ s.old.taken_out }
    ensures refused { (f : Fault) → result ≡ Err f → (s.new ≡ s.old) × (words.new ≡ words.old) }
{
    s.check_lent(words)?;
    s.check_half()?;
    s.store.index_off();
    take_turns(s, words);
    drop_all_valued(s);
    Ok(s.store.live())
}
