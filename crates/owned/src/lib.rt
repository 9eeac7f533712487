// Own lists: clauses in slots of lent words, each slot in the ring of the last literal of its clause.
//
// Holds `Owned`, on which every store rests, the layout of its words, what each change makes of the lists, and the laws that hold of all
// own lists (specs/). What finds the uses of a literal is another matter: a slot that was retired can be kept, as lost, while uses have
// it, and each slot has the literals that uses may have it at.
// Promises: each call answers and changes what its contract says of the lists and the clauses, and asks nothing of a caller. A slot is
// named by its number, and a number that no own list has is answered with none, or changes nothing.
// Rests on `rings` (lists in words), `slots` (what lists of slots keep), `clause` and `image` (what a clause is), and on what `rules`
// proves of clauses.
#![tactic(auto)]

ghost use Rattle.owned.specs.Laws.{OwnLaws};
ghost use Rattle.owned.specs.declared.owned.Owned.{Owned};

pub mod changes;
mod lists;
pub mod owned;
pub mod questions;
pub mod sizes;
mod words;

// What holds of all own lists, whatever was done to them.
pub fn own_laws()
    ensures { (o : Owned) → OwnLaws o }
{}
