ghost use Rattle.std.specs.Prelude.{◌≡◌, ◌≤◌, length};
ghost use Rattle.clause.specs.Types.{values_of};
ghost use Rattle.network.specs.Clauses.{last};
ghost use Rattle.rules.specs.Const.{fate};
ghost use Rattle.constants.specs.Told.{left_size, told_fate};

use clause::{Lbool, ordered_simp};

// What becomes of a clause: it goes, a shorter form of so many literals is entered beside it, or it stays as it is.
#[derive(Clone, Copy, PartialEq, Eq, Debug)]
pub enum Fate {
    Goes,
    Shrinks(usize),
    Stays,
}

// The last literal of a clause, 0 where there is none.
fn last_of(clause: &[u32]) -> u32
    ensures { result ≡ last clause.now }
{
    match clause {
        [.., literal] => *literal,
        [] => 0,
    }
}

// The fate of a clause of at most 32 literals under the known values; a shorter form is written to the front of `left`.
pub fn fate_of(clause: &[u32], values: &[Lbool], left: &mut [u32; 32]) -> Fate
    ensures tells { length clause.now ≤ 32 → told_fate left.new result ≡ fate (values_of values.now) clause.now }
    ensures within { left_size result ≤ 32 }
{
    let Some(n) = ordered_simp(clause, values, left) else {
        return Fate::Goes;
    };
    if last_of(&left[..n]) != last_of(clause) {
        return Fate::Goes;
    }
    if n < clause.len() {
        Fate::Shrinks(n)
    } else {
        Fate::Stays
    }
}
