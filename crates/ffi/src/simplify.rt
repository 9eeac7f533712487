ghost use Rattle.ffi.specs.Simplified.{prepared, simplified, simplified_over, store_checked};
ghost use Rattle.input.specs.Inputs.{with_frozen};
ghost use Rattle.intake.specs.Answers.{only_zero};
ghost use Rattle.std.specs.Prelude.{◌≡◌, ◌⊎◌, Ok, Err, length, IfErr, IfOk};
ghost use Rattle.handing_out.specs.Outcome.{counted, left_in};

use image::fault::Fault;
use input::opening::open_image;
use intake::state::Intake;
use store::store::Store;
use work::state::Work;

// Simplifies the network of an intake over a store, in lent working words, and writes its image to the front of `out`. The answer is
// how many words the image has.
pub fn simplify_over<S: Store + Drop>(
    intake: Intake<'_>,
    store: S,
    working: &mut [u32],
    out: &mut [u32],
) -> Result<u32, Fault>
    ensures answer { result ≡ counted (simplified_over (length working.old) (length out.old) intake.entry.image.now intake.entry.frozen (S.meaning store)) }
    ensures out { out.new ≡ left_in out.old (simplified_over (length working.old) (length out.old) intake.entry.image.now intake.entry.frozen (S.meaning store)) }
    ensures working { IfErr result (λ f. (f.number ≡ 14) ⊎ (working.new ≡ working.old)) }
{
    match Work::start(intake, store) {
        Ok(mut work) => work.simplify(working, out),
        Err((_, _, fault)) => Err(fault),
    }
}

// Whether a store of a kind, indexed or scanned, can have this room in so many words.
fn check(indexed: bool, room: u32, words: usize) -> Result<(), Fault>
    ensures { result ≡ store_checked indexed room words }
{
    if indexed {
        indexed::making::check(room, words)
    } else {
        scanned::making::check(room, words)
    }
}

// Takes an image in, freezes nodes of it in order, and checks the room and the number of words of a store.
fn prepare<'i>(
    image: &'i [u32],
    frozen: &[u32],
    indexed: bool,
    room: u32,
    words: usize,
) -> Result<Intake<'i>, Fault>
    ensures answer { elim result [ Ok i ↦ prepared indexed image.now frozen.now room words ≡ Ok tt | Err f ↦ prepared indexed image.now frozen.now room words ≡ Err f ] }
    ensures intake { IfOk result (λ i. (i.image ≡ image.entry) × (i.frozen ≡ with_frozen only_zero frozen.now)) }
{
    let mut intake = Intake::smallest();
    open_image(frozen, image, &mut intake)?;
    check(indexed, room, words)?;
    Ok(intake)
}

// Takes an image in, freezes nodes of it in order, starts a work over an empty store, indexed or scanned, simplifies it, and writes its
// image to the front of `out`. The answer is how many words the image has. All words are lent, and nothing is allocated. Refused as
// these calls are, by the first that is; then `out` is as it was, the working words too unless the refusal is 14, and the words of the
// store unless it was made.
pub fn simplify_words(
    image: &[u32],
    frozen: &[u32],
    indexed: bool,
    room: u32,
    store: &mut [u32],
    working: &mut [u32],
    out: &mut [u32],
) -> Result<u32, Fault>
    ensures answer { result ≡ counted (simplified indexed image.now frozen.now room (length store.old) (length working.old) (length out.old)) }
    ensures out { out.new ≡ left_in out.old (simplified indexed image.now frozen.now room (length store.old) (length working.old) (length out.old)) }
    ensures working { IfErr result (λ f. (f.number ≡ 14) ⊎ (working.new ≡ working.old)) }
    ensures store { IfErr (prepared indexed image.now frozen.now room (length store.old)) (λ f. store.new ≡ store.old) }
{
    let intake = prepare(image, frozen, indexed, room, store.len())?;
    if indexed {
        simplify_over(intake, indexed::making::indexed(store, room), working, out)
    } else {
        simplify_over(intake, scanned::making::scanned(store, room), working, out)
    }
}
