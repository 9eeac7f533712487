ghost use Rattle.image.specs.Runs.{clauses};
ghost use Rattle.intake.specs.Answers.{searched};
ghost use Rattle.std.specs.Prelude.{◌≡◌, ◌≤◌, length};

use crate::row::Row;
use crate::whole::WholeRun;
use image::fault::{Fault, Refusal};

// Whether a row of the lower nodes allows the node of a run both values, unless one allows none: the search ends at the first
// such row. Nested loops, left by a label there, with `clash` to say so after them (docs/DECISIONS.md, 8).
pub(crate) fn search_rows(run: WholeRun<'_>, low: &[u32]) -> Result<bool, Fault>
    requires few { length low.now ≤ 8 }
    ensures { result ≡ searched low.now run.entry.run.node (clauses run.entry.run.words.now) }
{
    let node = run.run.node;
    let mut loose = false;
    let mut clash = false;
    'rows: for number in 0..(1u32 << low.len()) {
        let without = Row {
            low,
            number,
            node,
            value: false,
        };
        let with = Row {
            value: true,
            ..without
        };
        let mut off = true;
        let mut on = true;
        for clause in run.run.fitting_clauses() {
            off = off && without.holds(clause);
            on = on && with.holds(clause);
            if !off && !on {
                clash = true;
                break 'rows;
            }
        }
        loose = loose || (off && on);
    }
    if clash {
        return Err(Refusal::Clash.at(node));
    }
    Ok(loose)
}
