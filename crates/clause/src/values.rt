// Clauses under known values.
ghost use Rattle.clause.specs.Types.{told, values_of};
ghost use Rattle.clause.specs.Written.{Writes};
ghost use Rattle.network.specs.Values.{literal, simplified};
ghost use Rattle.std.specs.Prelude.{◌≡◌, length};

use crate::literals::{Lbool, Lit};

// What the values, one for each node, say of a literal. Nothing is known of a node past their end.
pub fn value_of(values: &[Lbool], l: Lit) -> Lbool
    ensures { told result ≡ literal (values_of values.now) l.word }
{
    match values.get(l.var().number as usize) {
        Some(value) if l.polarity() => *value,
        Some(value) => value.opposite(),
        None => Lbool::Unknown,
    }
}

// None where a literal is true, else the literals that are not false, in order, at the front of `out`. None also where `out` is shorter
// than the clause.
pub fn ordered_simp(clause: &[u32], values: &[Lbool], out: &mut [u32]) -> Option<usize>
    ensures { Writes (length clause.now) result (simplified (values_of values.now) clause.now) out.old out.new }
{
    if out.len() < clause.len() {
        return None;
    }
    // `out` is lent and has no length of its own, so that `n` counts what is written.
    let mut n = 0;
    for l in clause {
        match value_of(values, Lit::from(*l)) {
            Lbool::True => return None,
            Lbool::False => {}
            Lbool::Unknown => {
                out[n] = *l;
                n += 1;
            }
        }
    }
    Some(n)
}
