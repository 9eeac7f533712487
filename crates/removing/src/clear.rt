// The clauses that name a node, cleared from own lists.
ghost use Rattle.std.specs.Prelude.{◌≡◌, ℕ, ◌+◌, ◌*◌, ◌<◌, ◌≤◌, false, ◌||◌, slice_index_or};
ghost use Rattle.std.specs.List.{list_any};
ghost use Rattle.removing.specs.Follows.{Follows};
ghost use Rattle.removing.specs.Outs.{is_of, names, used_in, uses_gone, without_named};

use store::store::Store;
use waiting::Waiting;

// Whether a clause names a node.
fn names(clause: &[u32], node: u32) -> bool
    ensures { result ≡ names node clause.now }
{
    clause.iter().any(|literal| *literal / 2 == node)
}

// Takes the clauses that name the node out of the own list of l, from the first place on, and tells the counts of each.
pub(crate) fn clear_named<S: Store>(store: &mut S, waiting: &mut Waiting<'_>, l: u32, node: u32)
    ensures makes { S.meaning store.new ≡ without_named node l (S.meaning store.old) }
    ensures follows { Follows (S.meaning store.old) (S.meaning store.new) waiting.old waiting.new }
{
    let mut at = store.first(l);
    // Counted, so that the walk is seen to end: there are as many clauses as it says, and `at` is never None here.
    for _k in 0..store.own_len(l) {
        let Some(h) = at else {
            return;
        };
        let clause = store.clause(h);
        at = if names(clause, node) {
            waiting.clause_goes(clause);
            store.remove_at(h).flatten()
        } else {
            store.next(h)
        };
    }
}

// Flags each literal in whose own list stands a use of x.
fn flag_users<S: Store>(store: &S, x: u32, flags: &mut [bool; 2048])
    ensures { (l : ℕ) → l < 2048 → slice_index_or flags.new l false ≡ (slice_index_or flags.old l false || list_any (is_of l) ((S.meaning store.now).uses x)) }
{
    let mut at = store.first_use(x);
    // Counted as above.
    for _j in 0..store.count(x) {
        let Some(u) = at else {
            return;
        };
        if let Some(h) = store.user(u) {
            flags[store.place(h).0 as usize] = true;
        }
        at = store.next_use(x, u);
    }
}

// The literals in whose own lists stand uses of the node.
fn users<S: Store>(store: &S, node: u32) -> [bool; 2048]
    requires { node ≤ 1023 }
    ensures { (l : ℕ) → l < 2048 → slice_index_or result l false ≡ used_in (S.meaning store.now) node l }
{
    let mut flags = [false; 2048];
    flag_users(store, 2 * node, &mut flags);
    flag_users(store, 2 * node + 1, &mut flags);
    flags
}

// Takes the clauses of the nodes after this one, up to `top`, that name it out of their own lists, and tells the counts of each.
pub(crate) fn clear_uses<S: Store>(store: &mut S, waiting: &mut Waiting<'_>, node: u32, top: u32)
    requires { (node ≤ top) × (top ≤ 1023) }
    ensures makes { S.meaning store.new ≡ uses_gone node top (S.meaning store.old) }
    ensures follows { Follows (S.meaning store.old) (S.meaning store.new) waiting.old waiting.new }
{
    let flags = users(store, node);
    for l in 2 * node + 2..2 * top + 2 {
        if flags[l as usize] {
            clear_named(store, waiting, l, node);
        }
    }
}
