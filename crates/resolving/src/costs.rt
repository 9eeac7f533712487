// What a node costs.
ghost use Rattle.std.specs.Prelude.{◌≡◌, ◌+◌, length, if◌then◌else◌};
ghost use Rattle.rules.specs.Bve.{cost, passed_over};
ghost use Rattle.rules.specs.Store.{count};
ghost use Rattle.rules.specs.Work.{Work};

use store::store::Store;

// The highest node that there may be.
pub(crate) const HIGHEST_NODE: u32 = 1023;

// The highest cost at which a node is attempted.
const HIGHEST_COST: u32 = 2000;

// How many uses a literal has, and how many clauses.
fn weight<S: Store>(store: &S, literal: u32) -> u32
    ensures { result ≡ count (S.meaning store.now) literal + length ((S.meaning store.now).own literal) }
{
    store.count(literal) + store.own_len(literal)
}

// The cost of a node: how many uses its literals have, and how many clauses.
pub fn cost<S: Store>(store: &S, node: u32) -> u32
    ensures { result ≡ cost (S.meaning store.now) node }
{
    if node > HIGHEST_NODE {
        return 0;
    }
    weight(store, 2 * node) + weight(store, 2 * node + 1)
}

// The cost of a node that is to be attempted. None where it is passed over: it is frozen, without a clause, or too costly.
pub fn attempted_cost<S: Store>(store: &S, node: u32, frozen: bool) -> Option<u32>
    ensures { (W : Work) → W.store ≡ S.meaning store.now → W.frozen node ≡ frozen → result ≡ (if passed_over W node then None else Some (cost W.store node)) }
{
    if frozen {
        return None;
    }
    let cost = cost(store, node);
    if cost == 0 || cost > HIGHEST_COST {
        return None;
    }
    Some(cost)
}
