// The turns of the clauses in a line, each against the later ones.
ghost use Rattle.lemmas.specs.Lines.{Lined, Turned, Ran};
ghost use Rattle.lemmas.specs.Marks.{Marked, Numbered};
ghost use Rattle.std.specs.Prelude.{◌≡◌, ◌<◌, length};

use crate::words::{Clauses, Meeting};

// What a turn came to. How many are left counts with another turn and without, so it is no Option.
#[derive(Clone, Copy)]
struct Turn {
    // How many clauses of the line are left.
    left: usize,
    // Whether it lost a literal, and so has its turn again.
    again: bool,
}

// Both require that the line names clauses that stand, each once, and that each has its mark: the line and the marks are lent apart,
// and only the line's first numbers are such.
impl Clauses<'_> {
    // The turn of the clause at the place `at`, against those after it among the first `n` of the line.
    fn sweep(&mut self, order: &mut [u32], marks: &mut [u32], at: usize, n: usize) -> Turn
        requires within { at < n }
        requires lined { Lined self.old order.old n }
        requires numbered { Numbered order.old n (length marks.old) }
        requires marked { Marked self.old marks.old }
        ensures turned { Turned at n result.left result.again self.old order.old self.new order.new }
        ensures marked { Marked self.new marks.new }
    {
        let first = order[at];
        let mut left = at + 1;
        let mut again = false;
        // The line is read and written in place, each number at or before the place that it came from.
        for j in at + 1..n {
            let later = order[j];
            match self.meet(marks, first, later) {
                Meeting::Stays => {
                    order[left] = later;
                    left += 1;
                }
                Meeting::Goes => {}
                Meeting::Joins => again = true,
            }
        }
        Turn { left, again }
    }

    // The turns of the first `n` clauses of the line, each once more while it loses literals: how many are left.
    pub(crate) fn run(&mut self, order: &mut [u32], marks: &mut [u32], n: usize) -> usize
        requires lined { Lined self.old order.old n }
        requires numbered { Numbered order.old n (length marks.old) }
        requires marked { Marked self.old marks.old }
        ensures ran { Ran n result self.old order.old self.new order.new }
        ensures lengths { self.new.lengths.ghost_name ≡ self.old.lengths.ghost_name }
        ensures literals { self.new.literals.ghost_name ≡ self.old.literals.ghost_name }
    {
        let mut at = 0;
        let mut left = n;
        // No `for`: `at` stands still for a clause that has its turn again, and `left` falls.
        while at < left {
            let turn = self.sweep(order, marks, at, left);
            left = turn.left;
            if !turn.again {
                at += 1;
            }
        }
        left
    }
}
