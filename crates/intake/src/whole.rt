ghost use Rattle.image.specs.Runs.{whole};
ghost use Rattle.intake.specs.Answers.{found_both, rows_answer};
ghost use Rattle.std.specs.Prelude.{◌≡◌, true};

use crate::search::search_rows;
use image::fault::Fault;
use image::lowers::lower_nodes;
use image::reader::Run;

// A run that is cut into clauses without a rest.
#[derive(Clone, Copy)]
pub(crate) struct WholeRun<'i> {
    pub(crate) run: Run<'i>,
    ghost whole: { whole run.words.now ≡ true },
}

impl<'i> WholeRun<'i> {
    // Whether a row allows both values, unless the run names too many lower nodes or a row allows none.
    pub(crate) fn check_rows(self) -> Result<bool, Fault>
        ensures { result ≡ rows_answer self.entry.run.node self.entry.run.words.now }
    {
        let low = lower_nodes(self.run)?;
        search_rows(self, low.as_slice())
    }

    // Whether a row allows both values.
    pub(crate) fn has_both(self) -> bool
        ensures { result ≡ found_both (rows_answer self.entry.run.node self.entry.run.words.now) }
    {
        self.check_rows().unwrap_or(false)
    }
}
