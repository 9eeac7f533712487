// The rules of the network simplifier: what a store of clauses means, what each pass and each call makes of it, and what they keep.
//
// Holds definitions (specs/), their proofs (proofs/), and small functions whose contracts name the theorems; no code runs.
// Promises, of any image that take-in accepts, any nodes frozen, any store and any list of calls: the network handed out admits
// a setting of the frozen nodes exactly if the network taken in does; a node taken out is named no more; no entry is refused.
// Rests on `network` (clauses, networks, settings), `image` (words and runs) and `intake` (what take-in accepts).
#![tactic(auto)]

ghost use Rattle.rules.specs.Lawful.{ChangesLawful, PassesLawful};
ghost use Rattle.rules.specs.Runs.{PassesApart, SampleRuns};
ghost use Rattle.rules.specs.Samples.{Samples};
ghost use Rattle.rules.specs.Sizes.{SizesSmall, WordsSuffice};
ghost use Rattle.rules.specs.Theorem.{AlwaysRight, CallsLeadOn, ComparedAlike, Refusals, StartsWell};

// The rules at small cases.
pub fn sample_cases()
    ensures { Samples }
{}

// Whole runs at small networks, refusals among them; and each pass does its own work and no other's.
pub fn sample_runs()
    ensures runs { SampleRuns }
    ensures apart { PassesApart }
{}

// Every change of a store and every pass keeps its meaning lawful, and a lawful store bounds what a call has to hold, so that the
// working words suffice.
pub fn store_laws()
    ensures changes { ChangesLawful }
    ensures passes { PassesLawful }
    ensures sizes { SizesSmall }
    ensures working { WordsSuffice }
{}

// What is handed out, after any calls, admits the settings that what was taken in admits, and compares with another as that does;
// nodes taken out are gone, and what asserts would say never fails.
pub fn simplification()
    ensures starts { StartsWell }
    ensures right { AlwaysRight }
    ensures compared { ComparedAlike }
{}

// Calls lead from one work to the next, and a refused one changes nothing.
pub fn call_laws()
    ensures leads { CallsLeadOn }
    ensures refusals { Refusals }
{}
