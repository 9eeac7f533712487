// Networks of gates as clauses: what they mean, and the laws that every step of the simplifier rests on.
//
// Holds definitions (specs/), their proofs (proofs/) and one function, whose contract names the laws. Promises: resolution,
// subsumption, strengthening, simplification under known values and the removal of a node by its definition are sound and exact,
// the rows of a node tell what values are left, and signatures tell what they are asked, as the laws say.
// Rests on nothing but the standard library.
#![tactic(auto)]

ghost use Rattle.network.specs.Theorems.{Basics, RowsTell, Resolution, DefinitionOut, Fitting, Simplification, Signatures, LoseBoth, Refine};

// The laws of clauses and networks stand.
pub fn laws_stand()
    ensures basics { Basics }
    ensures rows { RowsTell }
    ensures resolution { Resolution }
    ensures definition { DefinitionOut }
    ensures fitting { Fitting }
    ensures simplification { Simplification }
    ensures signatures { Signatures }
    ensures pair { LoseBoth }
    ensures refine { Refine }
{}
