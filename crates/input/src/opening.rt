ghost use Rattle.input.specs.Inputs.{Opened, OpenedBytes, bytes_answer, freeze_answer, image_answer, open_answer, parts, with_frozen};
ghost use Rattle.std.specs.Prelude.{◌≡◌, Ok, Err, OnOk};
ghost use Rattle.intake.specs.Answers.{only_zero};

use crate::bytes::decode;
use image::fault::{Fault, Refusal};
use intake::state::Intake;
use intake::taken::take_in;

// The nodes to freeze and the image of an input.
fn split(words: &[u32]) -> Result<(&[u32], &[u32]), Fault>
    ensures { elim result [ Ok p ↦ parts words.now ≡ Ok (p.0.now, p.1.now) | Err f ↦ parts words.now ≡ Err f ] }
{
    match words {
        [count, rest @ ..] if *count as usize <= rest.len() => Ok(rest.split_at(*count as usize)),
        _ => Err(Refusal::Head.at(0)),
    }
}

// Freezes nodes in order, up to the first that the image lacks.
fn freeze_all(nodes: &[u32], into: &mut Intake<'_>) -> Result<(), Fault>
    ensures answer { result ≡ freeze_answer into.old.image.now nodes.now }
    ensures image { into.new.image ≡ into.old.image }
    ensures frozen { OnOk result (into.new.frozen ≡ with_frozen into.old.frozen nodes.now) }
{
    for n in nodes {
        into.froze(*n)?;
    }
    Ok(())
}

// Takes an image in, and freezes nodes in order; or refuses it, and changes nothing.
pub fn open_image<'i>(nodes: &[u32], image: &'i [u32], into: &mut Intake<'i>) -> Result<(), Fault>
    ensures answer { result ≡ image_answer image.now nodes.now }
    ensures into { elim result [ Ok _ ↦ (into.new.image ≡ image.entry) × (into.new.frozen ≡ with_frozen only_zero nodes.now) | Err f ↦ into.new ≡ into.old ] }
{
    let mut opened = Intake::smallest();
    take_in(image, &mut opened)?;
    freeze_all(nodes, &mut opened)?;
    *into = opened;
    Ok(())
}

// Takes the image of an input in, and freezes its nodes; or refuses it, and changes nothing.
pub fn open_input<'i>(words: &'i [u32], into: &mut Intake<'i>) -> Result<(), Fault>
    ensures answer { result ≡ open_answer words.now }
    ensures into { elim result [ Ok _ ↦ Opened words.now into.new.image.now into.new.frozen | Err f ↦ into.new ≡ into.old ] }
{
    let (nodes, image) = split(words)?;
    open_image(nodes, image, into)
}

// Opens an input from its bytes, by way of `words`; or refuses it, and leaves the intake as it was.
pub fn open_bytes<'i>(
    bytes: &[u8],
    words: &'i mut [u32; 16384],
    into: &mut Intake<'i>,
) -> Result<(), Fault>
    ensures answer { result ≡ bytes_answer bytes.now }
    ensures into { elim result [ Ok _ ↦ OpenedBytes bytes.now into.new.image.now into.new.frozen | Err f ↦ into.new ≡ into.old ] }
{
    let n = decode(bytes, words)?;
    open_input(&words[..n], into)
}
