// How long the image is.
ghost use Rattle.handing_out.specs.Sizes.{Measures, or_alone};
ghost use Rattle.clause.specs.Types.{values_of};
ghost use Rattle.rules.specs.Calls.{count_out, handed_out, only_unit, words_out};
ghost use Rattle.simplifier.specs.Shown.{work_of};
ghost use Rattle.std.specs.Prelude.{◌≡◌, ℕ, ◌+◌, ◌^◌, ◌<◌, ◌≤◌, false, [], List, length, slice_index_or};

use clause::{Lbool, Lit, value_of};
use simplifier::state::Simplifier;
use store::lists::Lists;

// How many words clauses are written as, and how many clauses there are.
#[derive(Clone, Copy)]
pub(crate) struct Size {
    pub(crate) words: u32,
    pub(crate) clauses: u32,
}

// The literal that a node is handed out as, in place of its clauses: what its value says of it, if it is frozen and has one.
pub(crate) fn only_literal<S>(s: &Simplifier<S>, node: u32) -> Option<Lit>
    requires { node ≤ s.now.top }
    ensures { (Cs : List (List ℕ)) → only_unit node (slice_index_or s.now.frozen node false) (values_of s.now.values node) Cs ≡ or_alone result Cs }
{
    if !s.frozen[node as usize] {
        return None;
    }
    let positive = Lit::from(2 * node);
    match value_of(&s.values, positive) {
        Lbool::True => Some(positive),
        Lbool::False => Some(positive.opposite()),
        Lbool::Unknown => None,
    }
}

impl Size {
    // Adds a clause: its length, and then its literals.
    fn add(&mut self, clause: &[u32])
        requires few { self.old.words + 33 < 2 ^ 32 }
        requires counted { self.old.clauses ≤ self.old.words }
        requires short { length clause.now ≤ 32 }
        ensures words { self.new.words ≡ self.old.words + (1 + length clause.now) }
        ensures clauses { self.new.clauses ≡ self.old.clauses + 1 }
    {
        self.words += 1 + clause.len() as u32;
        self.clauses += 1;
    }

    // The size of an own list, of at most 4,096 clauses of 33 words each.
    fn of_list<S: Lists>(store: &S, l: u32) -> Size
        ensures measures { Measures ((S.meaning store.now).own l) result }
        ensures few { result.words ≤ 135168 }
        ensures counted { result.clauses ≤ result.words }
    {
        let mut size = Size {
            words: 0,
            clauses: 0,
        };
        let mut at = store.first(l);
        // A loop, for a handle is tied to its place by a relation, and no iterator gives the clauses of a list.
        while let Some(h) = at {
            size.add(store.clause(h));
            at = store.next(h);
        }
        size
    }

    // The size of what is handed out of a node, at most two own lists.
    fn of_node<S: Lists>(s: &Simplifier<S>, node: u32) -> Size
        requires { node ≤ s.now.top }
        ensures measures { Measures (handed_out (work_of S.meaning s.now []) node) result }
        ensures few { result.words ≤ 270336 }
        ensures counted { result.clauses ≤ result.words }
    {
        match only_literal(s, node) {
            Some(_) => Size {
                words: 2,
                clauses: 1,
            },
            None => {
                let positive = Size::of_list(&s.store, 2 * node);
                let negative = Size::of_list(&s.store, 2 * node + 1);
                Size {
                    words: positive.words + negative.words,
                    clauses: positive.clauses + negative.clauses,
                }
            }
        }
    }

    // The size of the image that is handed out, with its header; node 0's clause is not counted.
    pub(crate) fn of_image<S: Lists>(s: &Simplifier<S>) -> Size
        ensures words { result.words ≡ length (words_out (work_of S.meaning s.now [])) }
        ensures clauses { result.clauses ≡ count_out (work_of S.meaning s.now []) }
    {
        let mut size = Size {
            words: s.top + 3,
            clauses: 0,
        };
        for node in 1..s.top + 1 {
            let part = Size::of_node(s, node);
            size.words += part.words;
            size.clauses += part.clauses;
        }
        size
    }
}
