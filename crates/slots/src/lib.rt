// Slots: a store's meaning told by slots in lists, for whatever keeps clauses in numbered slots.
//
// Holds the meaning of lists of slots (specs/), and the laws that each change of the slots is the change of the meaning; no code
// runs. Promises: entering, removing, retiring, shortening and indexing, done to the lists of slots, are those of `rules`.
// Rests on `network` (clauses), `rules` (the meaning) and `rings` (lists of different slots).
#![tactic(auto)]

ghost use Rattle.slots.specs.Laws.{SlotLaws};

// Each change of the slots is the change of the meaning.
pub fn slot_laws()
    ensures { SlotLaws }
{}
