ghost use Rattle.image.specs.Faults.{fault};
ghost use Rattle.image.specs.Headers.{headed, run as run_of, top as top_of};
ghost use Rattle.std.specs.Prelude.{◌≡◌, if◌then◌else◌, Ok, Err};

use crate::fault::{Fault, Refusal};
use crate::reader::Run;

// The highest node of an image, refused where its counts and offsets do not fit its words.
pub fn check_head(words: &[u32]) -> Result<u32, Fault>
    ensures { result ≡ (if headed words.now then Ok (top_of words.now) else Err (fault 1 0)) }
{
    let refused = Refusal::Head.at(0);
    let [top, _, first, ..] = words else {
        return Err(refused);
    };
    let top = *top;
    if top > 1023 || words.len() < top as usize + 3 || *first != top + 3 {
        return Err(refused);
    }
    if !words[2..top as usize + 3].is_sorted() || words[top as usize + 2] as usize != words.len() {
        return Err(refused);
    }
    Ok(top)
}

// The run of a node, as far as the offsets lie within the image; no words for node 0 and past the highest node.
pub fn run_of(words: &[u32], node: u32) -> Run<'_>
    ensures words { result.words.now ≡ run_of words.now node }
    ensures node { result.node ≡ node }
{
    let k = node as usize;
    if k == 0 || k + 2 >= words.len() || node > words[0] {
        return Run { words: &[], node };
    }
    let end = (words[k + 2] as usize).min(words.len());
    let words = words.get(words[k + 1] as usize..end).unwrap_or(&[]);
    Run { words, node }
}
