// Starting: the network of an intake, entered into a store.
//
// Holds `refusal`, the tests that come first, and `begin`, which enters node 0's clause and then those of all nodes, rising. Promises:
// both answer what the rules say, on any intake and any store. Rests on `intake` (the image and the frozen nodes), `simplifier` (the
// entry of a clause), `store` and `rules` (the work).
#![tactic(auto)]

ghost use Rattle.image.specs.Runs.{clauses, whole};
ghost use Rattle.network.specs.Lists.{In};
ghost use Rattle.rules.specs.Calls.{begun, start, started};
ghost use Rattle.rules.specs.Work.{add, each};
ghost use Rattle.simplifier.specs.Shown.{work_of};
ghost use Rattle.starting.specs.Refused.{refused};
ghost use Rattle.std.specs.Prelude.{◌≡◌, ℕ, ◌≤◌, true, false, List, [], length, replicate};

use clause::Lbool;
use image::fault::{Fault, Refusal};
use image::reader::Run;
use intake::state::Intake;
use simplifier::state::Simplifier;
use store::lists::Lists;

// Why the intake cannot be started over the store: with 11 where its clauses and node 0's are more than half of the room, and else
// with 12 at the lowest node that is loose and not frozen.
pub fn refusal<S: Lists>(intake: &Intake<'_>, store: &S) -> Result<(), Fault>
    ensures { result ≡ refused (start intake.now.image.now intake.now.frozen (S.meaning store.now)) }
{
    let clauses = intake.clause_count() + 1;
    if clauses > store.room() / 2 {
        return Err(Refusal::Full.at(clauses));
    }
    match intake.loose() {
        Some(node) => Err(Refusal::Loose.at(node)),
        None => Ok(()),
    }
}

// The simplifier of the intake with every clause entered, over the store, which is emptied first.
pub fn begin<S: Lists>(intake: &Intake<'_>, store: S) -> Simplifier<S>
    ensures started { work_of S.meaning result [] ≡ started intake.now.image.now intake.now.frozen (S.meaning store) }
    ensures none_out { result.taken_out ≡ replicate 1024 false }
{
    let mut s = blank(intake, store);
    s.add(&[1]);
    for node in 1..intake.top() + 1 {
        enter_run(&mut s, intake.run(node));
    }
    s
}

// The simplifier of the intake with no clause entered yet.
fn blank<S: Lists>(intake: &Intake<'_>, mut store: S) -> Simplifier<S>
    ensures begun { work_of S.meaning result [] ≡ begun intake.now.image.now intake.now.frozen (S.meaning store) }
    ensures none_out { result.taken_out ≡ replicate 1024 false }
{
    store.empty();
    let mut frozen = [false; 1024];
    for node in 0..1024 {
        frozen[node as usize] = intake.is_frozen(node);
    }
    Simplifier {
        top: intake.top(),
        frozen,
        values: [Lbool::Unknown; 1024],
        taken_out: [false; 1024],
        store,
    }
}

// Enters the clauses of a run, in its order. None is cut, which the proof of `unwrap` shows.
fn enter_run<S: Lists>(s: &mut Simplifier<S>, run: Run<'_>)
    requires whole { whole run.words.now ≡ true }
    requires short { (C : List ℕ) → In C (clauses run.words.now) → length C ≤ 32 }
    ensures entered { work_of S.meaning s.new [] ≡ each add (clauses run.entry.words.now) (work_of S.meaning s.old []) }
    ensures none_out { s.new.taken_out ≡ s.old.taken_out }
{
    for clause in run.clauses() {
        s.add(clause.unwrap());
    }
}
