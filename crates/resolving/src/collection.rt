// All resolvents of a node in the words of a simplification, and what that leaves of them.
ghost use Rattle.std.specs.Prelude.{◌≡◌, ℕ, ◌<◌, false, length, List, [], Some, None, MatchOption, IfSome, slice_index_or};
ghost use Rattle.network.specs.Lemmas.{lemmas};
ghost use Rattle.rules.specs.Bve.{all_resolvents};
ghost use Rattle.resolving.specs.Answers.{suffice, unless_too_much, Stand, Left, Lent, named_at};

use crate::resolvents::{Resolvents, WIDTH};
use lemmas::Lemmas;
use store::store::Store;

// Whether the words suffice for `most` clauses and for one more, whole, which is then seen to be one too many.
fn suffice(words: &Lemmas<'_>, most: u32) -> bool
    ensures { result ≡ suffice most words.now }
{
    let n = most as usize;
    n <= words.lengths.len()
        && WIDTH * n + 2 * WIDTH <= words.literals.len()
        && n <= words.order.len()
        && n <= words.entries.len()
        && n <= words.places.len()
}

// Collects the resolvents of a node and answers how many they are: those of the clauses of its positive literal first. The answer is None
// where one is longer than 32 literals or they are more than `most`, and where the words do not suffice.
pub fn collect<S: Store>(store: &S, node: u32, most: u32, words: &mut Lemmas<'_>) -> Option<u32>
    ensures number { result ≡ unless_too_much most words.old (all_resolvents (S.meaning store.now) node) (length (all_resolvents (S.meaning store.now) node)) }
    ensures stand { IfSome result (λ n. Stand n (all_resolvents (S.meaning store.now) node) words.new) }
    ensures lent { Lent words.old words.new }
    ensures line { (words.new.order ≡ words.old.order) × (words.new.entries ≡ words.old.entries) × (words.new.places ≡ words.old.places) }
    ensures unchanged { suffice most words.old ≡ false → words.new ≡ words.old }
{
    if !suffice(words, most) {
        return None;
    }
    let mut resolvents = Resolvents {
        lengths: &mut *words.lengths,
        literals: &mut *words.literals,
        count: 0,
        most,
    };
    resolvents.resolve_node(store, node)?;
    Some(resolvents.count)
}

// Collects the resolvents of a node and simplifies them among themselves. Answers how many are left, r, and `order[0..r]` names them in
// their order. The answer is None where `collect` gives none.
pub fn lemmas_of<S: Store>(store: &S, node: u32, most: u32, words: &mut Lemmas<'_>) -> Option<usize>
    ensures number { result ≡ unless_too_much most words.old (all_resolvents (S.meaning store.now) node) (length (lemmas (all_resolvents (S.meaning store.now) node))) }
    ensures left { IfSome result (λ n. Left n (lemmas (all_resolvents (S.meaning store.now) node)) words.new) }
    ensures lent { Lent words.old words.new }
    ensures unchanged { suffice most words.old ≡ false → words.new ≡ words.old }
{
    let count = collect(store, node, most, words)?;
    words.lemmas_subsume_simplify(count)
}

// The clause that the line names at a place. None where the line has no such place, or not all words of the clause are there.
pub fn clause_left<'a>(words: &'a Lemmas<'_>, place: usize) -> Option<&'a [u32]>
    ensures named { MatchOption result (named_at words.now place ≡ None) (λ c. named_at words.now place ≡ Some c.now) }
    ensures left { (n : ℕ) (Rs : List (List ℕ)) → Left n Rs words.now → place < n → MatchOption result ⊥ (λ c. c.now ≡ slice_index_or Rs place []) }
{
    let number = *words.order.get(place)? as usize;
    let len = *words.lengths.get(number)? as usize;
    let from = WIDTH * number;
    words.literals.get(from..from + len)
}
