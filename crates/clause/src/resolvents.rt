// Resolvents of two clauses.
ghost use Rattle.std.specs.Prelude.{◌≡◌, ◌≢◌, ◌+◌, ◌<◌, ◌≤◌, length, take, slice_set, MatchOption, Some};
ghost use Rattle.clause.specs.Written.{before, after, last_node, Gives, Writes};
ghost use Rattle.network.specs.Assignments.{node};
ghost use Rattle.network.specs.Clauses.{without};
ghost use Rattle.network.specs.Resolution.{resolve};

use crate::literals::Lit;

// A resolvent as far as it is written: `len` literals at the front of `out`, which is lent and has no length of its own.
#[derive(Drop)]
struct Merged<'o> {
    out: &'o mut [u32],
    len: usize,
}

impl Merged<'_> {
    // Adds a literal; none, and nothing added, where its node is that of the last one.
    fn push(&mut self, l: u32) -> Option<()>
        requires { self.old.len < length self.old.out.now }
        ensures same_reference { self.new.out.ghost_name ≡ self.old.out.ghost_name }
        ensures added { MatchOption result ((last_node (take self.old.len self.old.out.now) ≡ Some (node l)) × (self.new.out.now ≡ self.old.out.now))
            (λ _. (last_node (take self.old.len self.old.out.now) ≢ Some (node l)) × (self.new.len ≡ self.old.len + 1) × (self.new.out.now ≡ slice_set self.old.out.now self.old.len l)) }
    {
        let n = self.len;
        if n > 0 && Lit::from(self.out[n - 1]).var() == Lit::from(l).var() {
            return None;
        }
        self.out[n] = l;
        self.len = n + 1;
        Some(())
    }

    // Adds the words of `src` but for `literal`, and says how many there are then: None where a node stands twice in a row.
    fn finish(&mut self, src: &[u32], literal: u32) -> Option<usize>
        requires { self.old.len + length src.now ≤ length self.old.out.now }
        ensures same_reference { self.new.out.ghost_name ≡ self.old.out.ghost_name }
        ensures added { Gives (self.old.len + length src.now) result
            (before (take self.old.len self.old.out.now) (after (last_node (take self.old.len self.old.out.now)) (without literal src.now))) self.old.out.now self.new.out.now }
    {
        for l in src {
            if *l != literal {
                self.push(*l)?;
            }
        }
        Some(self.len)
    }
}

// The resolvent of `a`, which has the pivot, and `b`, which has its opposite, in order at the front of `out`: None for a tautology, and where
// `out` is shorter than both clauses together.
pub fn ordered_resolvent(a: &[u32], b: &[u32], pivot: Lit, out: &mut [u32]) -> Option<usize>
    ensures { Writes (length a.now + length b.now) result (resolve pivot.word a.now b.now) out.old out.new }
{
    if out.len() < a.len() || out.len() - a.len() < b.len() {
        return None;
    }
    let (x, y) = (pivot.word, pivot.opposite().word);
    let mut merged = Merged { out, len: 0 };
    let mut rest = b;
    for (k, c) in a.iter().enumerate() {
        // Nothing is left to merge with: the rest of `a` goes on as it is, with no look at `b` for each literal.
        if rest.is_empty() {
            return merged.finish(&a[k..], x);
        }
        if *c == x {
            continue;
        }
        while let [d, after_d @ ..] = rest
            && (*d == y || d < c)
        {
            if *d != y {
                merged.push(*d)?;
            }
            rest = after_d;
        }
        if let [d, after_d @ ..] = rest
            && d == c
        {
            rest = after_d;
        }
        merged.push(*c)?;
    }
    merged.finish(rest, y)
}
