// Everything that can be asked of a store, as numbers.
use std::alloc::{AllocError, Global};
use store::store::Store;

// Literals that the changes name are below this one.
pub const LITERALS: u32 = 18;

// What was seen: the numbers, and how many clauses and uses they tell of.
#[derive(Drop)]
pub struct Seen {
    pub numbers: Vec<u32>,
    pub clauses: u32,
    pub uses: u32,
}

// The own list of a literal: each clause with the place that its handle tells, and whether that is the handle of its place.
fn see_own<S: Store>(store: &S, l: u32, seen: &mut Seen) -> Result<(), AllocError> {
    seen.numbers.push(store.own_len(l))?;
    let mut at = store.first(l);
    for i in 0..store.own_len(l) {
        let Some(h) = at else {
            break;
        };
        let (list, place) = store.place(h);
        seen.numbers.push(list)?;
        seen.numbers.push(place)?;
        let same = store.nth(l, i).is_some_and(|k| store.same(h, k));
        seen.numbers.push(same as u32)?;
        seen.numbers.extend_from_slice(store.clause(h))?;
        seen.clauses = seen.clauses.wrapping_add(1);
        at = store.next(h);
    }
    Ok(())
}

// The uses of a literal: of each the place of its clause, or that it is dead.
fn see_uses<S: Store>(store: &S, k: u32, seen: &mut Seen) -> Result<(), AllocError> {
    seen.numbers.push(store.count(k))?;
    let mut at = store.first_use(k);
    for _j in 0..store.count(k) {
        let Some(u) = at else {
            break;
        };
        let (list, place) = store.user(u).map_or((4096, 4096), |h| store.place(h));
        seen.numbers.push(list)?;
        seen.numbers.push(place)?;
        seen.uses = seen.uses.wrapping_add(1);
        at = store.next_use(k, u);
    }
    Ok(())
}

// All of a store.
pub fn shown<S: Store>(heap: Global, store: &S) -> Result<Seen, AllocError> {
    let mut seen = Seen {
        numbers: vec![in heap; store.room(), store.live(), store.indexed() as u32]?,
        clauses: 0,
        uses: 0,
    };
    for l in 0..LITERALS {
        see_own(store, l, &mut seen)?;
        see_uses(store, l, &mut seen)?;
    }
    Ok(seen)
}
