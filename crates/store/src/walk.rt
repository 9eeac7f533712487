ghost use Rattle.std.specs.Prelude.{◌≡◌, ℕ, ◌+◌, ◌<◌, ◌≤◌, length};
ghost use Rattle.rules.specs.Store.{live_clauses};

use crate::lists::Lists;

// How many clauses a walk along the own list of l meets.
pub fn walked<S: Lists>(s: &S, l: u32) -> u32
    ensures { result ≡ length ((S.meaning s.now).own l) }
{
    let mut i = 0;
    let mut at = s.first(l);
    // A loop, for a handle is tied to its place by a relation, and no function gives the list of those left, as an iterator's would.
    while let Some(h) = at {
        at = s.next(h);
        i += 1;
    }
    i
}

// How many clauses a walk along every own list meets: those that are live.
pub fn walked_all<S: Lists>(s: &S) -> u64
    ensures { result ≡ live_clauses (S.meaning s.now) }
{
    let mut n = 0u64;
    // No `sum`, which would ask beforehand that the whole fits.
    for l in 0..2048 {
        n += walked(s, l) as u64;
    }
    n
}
