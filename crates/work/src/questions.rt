ghost use Rattle.clause.specs.Types.{told, values_of};
ghost use Rattle.image.specs.Headers.{top as top_of};
ghost use Rattle.rules.specs.Store.{live_clauses};
ghost use Rattle.std.specs.Prelude.{◌≡◌, ◌≤◌, true, slice_index_or, false};
ghost use Rattle.work.specs.Promises.{Gone};

use crate::state::Work;
use clause::Lbool;
use store::store::Store;

impl<S: Store> Work<'_, S> {
    // The highest node, which is that of the image taken in.
    pub fn top(&self) -> u32
        ensures answer { result ≡ self.now.simplifier.top }
        ensures image { result ≡ top_of self.now.image.now }
        ensures small { result ≤ 1023 }
    {
        self.simplifier.top
    }

    // Whether a node is frozen.
    pub fn is_frozen(&self, node: u32) -> bool
        ensures { result ≡ slice_index_or self.now.simplifier.frozen node false }
    {
        self.simplifier
            .frozen
            .get(node as usize)
            .is_some_and(|frozen| *frozen)
    }

    // What is known of a node's value.
    pub fn value(&self, node: u32) -> Lbool
        ensures { told result ≡ values_of self.now.simplifier.values node }
    {
        match self.simplifier.values.get(node as usize) {
            Some(value) => *value,
            None => Lbool::Unknown,
        }
    }

    // Whether a node was taken out. It is not frozen then, and no live clause names it.
    pub fn is_taken_out(&self, node: u32) -> bool
        ensures answer { result ≡ slice_index_or self.now.simplifier.taken_out node false }
        ensures gone { result ≡ true → Gone S.meaning self.now.simplifier node }
    {
        self.simplifier
            .taken_out
            .get(node as usize)
            .is_some_and(|out| *out)
    }

    // How many clauses are live, node 0's among them.
    pub fn live(&self) -> u32
        ensures { result ≡ live_clauses (S.meaning self.now.simplifier.store) }
    {
        self.simplifier.store.live()
    }

    // How many clauses the store can keep.
    pub fn room(&self) -> u32
        ensures { result ≡ (S.meaning self.now.simplifier.store).room }
    {
        self.simplifier.store.room()
    }

    // The store, which tells own lists by `first`, `next` and `clause`.
    pub fn store(&self) -> &S
        ensures { result.now ≡ self.now.simplifier.store }
    {
        &self.simplifier.store
    }
}
