// Handing out: the network that a simplifier holds, as an image in lent words.
//
// Holds `finalize`, which measures the image and then writes it. Promises: what it answers and what the lent words hold then is what
// the rules say; the words past the image stay, and a refusal writes nothing. Rests on `simplifier` (the network), `store` (own
// lists), `clause` (known values), `rules` (the image handed out) and `image` (faults).
#![tactic(auto)]

ghost use Rattle.handing_out.specs.Outcome.{counted, left_in};
ghost use Rattle.rules.specs.Calls.{finalize_answer};
ghost use Rattle.simplifier.specs.Shown.{work_of};
ghost use Rattle.std.specs.Prelude.{◌≡◌, ℕ, List, length};

mod measure;
mod write;

use image::fault::{Fault, Refusal};
use measure::Size;
use simplifier::state::Simplifier;
use store::lists::Lists;
use write::write_image;

// Writes the image of the network to the front of `out`, and says how many words it has; refused where `out` has fewer.
pub fn finalize<S: Lists>(s: &Simplifier<S>, out: &mut [u32]) -> Result<u32, Fault>
    ensures answer { (gone : List ℕ) → result ≡ counted (finalize_answer (length out.old) (work_of S.meaning s.now gone)) }
    ensures words { (gone : List ℕ) → out.new ≡ left_in out.old (finalize_answer (length out.old) (work_of S.meaning s.now gone)) }
{
    let size = Size::of_image(s);
    if out.len() < size.words as usize {
        return Err(Refusal::Margin.at(size.words));
    }
    write_image(s, size.clauses, out);
    Ok(size.words)
}
