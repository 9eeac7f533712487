// One clause against another, and the loss of a literal.
ghost use Rattle.clause.specs.Types.{worded};
ghost use Rattle.clause.specs.Written.{Front};
ghost use Rattle.network.specs.Clauses.{without};
ghost use Rattle.network.specs.Subsumption.{part_of, fits};
ghost use Rattle.std.specs.Prelude.{◌≡◌};

use crate::literals::Lit;

// Whether each literal of `a` stands in `b`. Not the first half of the pair below: where `b` names a node twice, the two differ.
pub fn ordered_subsume(a: &[u32], b: &[u32]) -> bool
    ensures { result ≡ part_of a.now b.now }
{
    if a.len() > b.len() {
        return false;
    }
    let mut rest = a;
    for d in b {
        let [c, after_c @ ..] = rest else {
            return true;
        };
        if c == d {
            rest = after_c;
        } else if c < d {
            return false;
        }
    }
    rest.is_empty()
}

// Whether each literal of `a` stands in `b`, and otherwise the literal that stands there with the opposite sign, if the others do.
// The pair is the source's: (true, None), (false, Some) or (false, None). The rest of `a` is cut only where a literal is met: a pattern that
// names what follows would make it anew at each literal of `b`, up to half as much again for a long `b`.
pub fn ordered_subsume_execpt_one(a: &[u32], b: &[u32]) -> (bool, Option<Lit>)
    ensures { worded result ≡ fits a.now b.now }
{
    if a.len() > b.len() {
        return (false, None);
    }
    let mut noted: Option<Lit> = None;
    let mut rest = a;
    for word in b {
        let [first, ..] = rest else {
            break;
        };
        let (c, d) = (Lit::from(*first), Lit::from(*word));
        if c == d {
            rest = &rest[1..];
        } else if c.var() == d.var() {
            if noted.is_some() {
                return (false, None);
            }
            noted = Some(c);
            rest = &rest[1..];
        } else if c.word < d.word {
            return (false, None);
        }
    }
    if !rest.is_empty() {
        return (false, None);
    }
    (noted.is_none(), noted)
}

// Drops a literal from a clause in place: the other literals, in order, at the front, and how many they are. No method of a slice does it:
// `retain` is one of `Vec`, and the words are lent.
pub fn drop_literal(clause: &mut [u32], literal: Lit) -> usize
    ensures { Front result (without literal.word clause.old) clause.old clause.new }
{
    let mut n = 0;
    for i in 0..clause.len() {
        let l = clause[i];
        if l != literal.word {
            clause[n] = l;
            n += 1;
        }
    }
    n
}
