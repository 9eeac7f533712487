ghost use Rattle.std.specs.Prelude.{◌≡◌, ◌<◌, ◌≤◌, true, false, not, ◌&&◌, IfOk, Ok, Err, Result as ResultT, slice_index_or, slice_set};
ghost use Rattle.image.specs.Headers.{run as run_of, top as top_of};
ghost use Rattle.image.specs.declared.fault.Fault.{Fault as FaultT};
ghost use Rattle.intake.specs.Accepted.{Answers as Means, total};
ghost use Rattle.intake.specs.Answers.{first_of, froze_answer, loose_at, loose_nodes, only_zero, smallest, take_in_answer};

use crate::check::check_image;
use crate::state::Intake;
use crate::whole::WholeRun;
use image::fault::{Fault, Refusal};
use image::header::run_of;
use image::reader::Run;
use std::alloc::{AllocError, Global};

impl<'i> Intake<'i> {
    // The intake of the smallest image, of node 0 alone.
    pub fn smallest() -> Self
        ensures image { result.image.now ≡ smallest }
        ensures frozen { result.frozen ≡ only_zero }
    {
        let mut frozen = [false; 1024];
        frozen[0] = true;
        Intake {
            image: &[0, 0, 3],
            frozen,
        }
    }

    // The highest node.
    pub fn top(&self) -> u32
        ensures answer { result ≡ top_of self.now.image.now }
        ensures small { result ≤ 1023 }
    {
        self.image[0]
    }

    // The words that were taken in.
    pub fn image(&self) -> &'i [u32]
        ensures { result ≡ self.now.image }
    {
        self.image
    }

    // The run of a node; no words for node 0 and past the highest node.
    pub fn run(&self, node: u32) -> Run<'i>
        ensures words { result.words.now ≡ run_of self.now.image.now node }
        ensures node { result.node ≡ node }
    {
        run_of(self.image, node)
    }

    // The same run, which take-in found to be cut into clauses without a rest.
    fn whole_run(&self, node: u32) -> WholeRun<'i>
        ensures words { result.run.words.now ≡ run_of self.now.image.now node }
        ensures node { result.run.node ≡ node }
    {
        WholeRun {
            run: self.run(node),
        }
    }

    // The number of clauses besides node 0's; one more can be counted.
    pub fn clause_count(&self) -> u32
        ensures count { result ≡ total self.now.image.now (top_of self.now.image.now) }
        ensures few { result < 4294967295 }
    {
        let count = self.image[1];
        // Each clause has a word at least, and the last offset is the number of words.
        prove!(count < self.image[self.top() as usize + 2]);
        count
    }

    // Whether a node is frozen.
    pub fn is_frozen(&self, node: u32) -> bool
        ensures { result ≡ slice_index_or self.now.frozen node false }
    {
        self.frozen.get(node as usize).is_some_and(|frozen| *frozen)
    }

    // Freezes a node; refused above the highest. A node may be frozen again, and node 0 always is.
    pub fn froze(&mut self, node: u32) -> Result<(), Fault>
        ensures answer { result ≡ froze_answer self.old.image.now node }
        ensures state { elim result [ Ok _ ↦ (self.new.image ≡ self.old.image) × (self.new.frozen ≡ slice_set self.old.frozen node true) | Err f ↦ self.new ≡ self.old ] }
    {
        if node > self.top() {
            return Err(Refusal::Stranger.at(node));
        }
        self.frozen[node as usize] = true;
        Ok(())
    }

    // Whether a node is not frozen and has a row that allows both values.
    pub fn is_loose(&self, node: u32) -> bool
        ensures { result ≡ (not (slice_index_or self.now.frozen node false) && loose_at self.now.image.now node) }
    {
        !self.is_frozen(node) && self.whole_run(node).has_both()
    }

    // The lowest node that is loose.
    pub fn loose(&self) -> Option<u32>
        ensures { result ≡ first_of (loose_nodes self.now.image.now self.now.frozen (top_of self.now.image.now)) }
    {
        (1..=self.top()).find(|node| self.is_loose(*node))
    }

    // All loose nodes, rising.
    pub fn loose_nodes(&self, heap: Global) -> Result<Vec<u32>, AllocError>
        ensures { IfOk result (λ v. v.items ≡ loose_nodes self.now.image.now self.now.frozen (top_of self.now.image.now)) }
    {
        (1..=self.top())
            .filter(|node| self.is_loose(*node))
            .collect(heap)
    }
}

// Takes an image in, in place of the one that `into` held, with only node 0 frozen; or refuses it, and changes nothing.
pub fn take_in<'i>(words: &'i [u32], into: &mut Intake<'i>) -> Result<(), Fault>
    ensures answer { result ≡ take_in_answer words.now }
    ensures means { Means words.now result }
    ensures only { (s : ResultT (Unit {0}) FaultT) → Means words.now s → result ≡ s }
    ensures into { elim result [ Ok _ ↦ (into.new.image ≡ words.entry) × (into.new.frozen ≡ only_zero) | Err f ↦ into.new ≡ into.old ] }
{
    check_image(words)?;
    into.image = words;
    into.frozen = [false; 1024];
    into.frozen[0] = true;
    Ok(())
}
