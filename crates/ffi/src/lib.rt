// The library for C: one call, which simplifies an image over words that the caller lends.
//
// Holds the exported function `dilkaums_simplify`, and under it `simplify_words`, the same call over slices, and `simplify_over`, which
// is generic over the store. Promises: the call answers what the rules say of taking in, freezing, checking, starting and simplifying,
// each refusal with its number and its place, and writes exactly the words of the image handed out; nothing is allocated. Rests on
// `input` (the intake of an image), `scanned` and `indexed` (the stores) and `work` (the calls).
#![tactic(auto)]

ghost use Rattle.ffi.specs.Simplified.{Numbered, Settled, number_told, place_told, prepared, simplified};
ghost use Rattle.handing_out.specs.Outcome.{left_in};
ghost use Rattle.std.specs.Prelude.{◌≡◌, ◌⊎◌, length, IfErr};

pub mod simplify;

use crate::simplify::simplify_words;

// Simplifies the image of a network, with nodes of it frozen, over a store, indexed or scanned, with room for so many clauses, and
// writes the image handed out to the front of `out`. The answer is 0, and `told` the number of words written; or the answer is the
// number of a refusal in the table of docs/RULES.md, and `told` its place. Then `out` is as it was, the working words too unless the
// refusal is 14, and the words of the store unless it was made. The caller has to lend slices that are valid and apart from each other;
// their words may be any.
#[unsafe(no_mangle)]
#[tactic(auto, using(crate::proofs::Numbers::numbered, crate::proofs::Settings::settled))]
pub extern "C" fn dilkaums_simplify(
    image: &[u32],
    frozen: &[u32],
    indexed: bool,
    room: u32,
    store: &mut [u32],
    working: &mut [u32],
    out: &mut [u32],
    told: &mut u32,
) -> u32
    ensures number { result ≡ number_told (simplified indexed image.now frozen.now room (length store.old) (length working.old) (length out.old)) }
    ensures place { told.new ≡ place_told (simplified indexed image.now frozen.now room (length store.old) (length working.old) (length out.old)) }
    ensures out { out.new ≡ left_in out.old (simplified indexed image.now frozen.now room (length store.old) (length working.old) (length out.old)) }
    ensures working { (result ≡ 0) ⊎ ((result ≡ 14) ⊎ (working.new ≡ working.old)) }
    ensures store { IfErr (prepared indexed image.now frozen.now room (length store.old)) (λ f. store.new ≡ store.old) }
    ensures settings { Settled image.now frozen.now (simplified indexed image.now frozen.now room (length store.old) (length working.old) (length out.old)) }
    ensures refused { Numbered (simplified indexed image.now frozen.now room (length store.old) (length working.old) (length out.old)) }
{
    match simplify_words(image, frozen, indexed, room, store, working, out) {
        Ok(written) => {
            *told = written;
            0
        }
        Err(fault) => {
            *told = fault.place;
            fault.number
        }
    }
}
