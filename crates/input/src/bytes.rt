ghost use Rattle.std.specs.Prelude.{◌≡◌, ◌≤◌, take, drop, Ok, Err};
ghost use Rattle.input.specs.Inputs.{input_words};

use image::fault::{Fault, Refusal};

// Writes the words of an input to the front of the lent `out`, and says how many there are; refused above 65,536 bytes and at a
// broken last word.
pub fn decode(bytes: &[u8], out: &mut [u32; 16384]) -> Result<usize, Fault>
    ensures { elim result [ Ok n ↦ (n ≤ 16384) × (input_words bytes.now ≡ Ok (take n out.new)) × (drop n out.new ≡ drop n out.old) | Err f ↦ (input_words bytes.now ≡ Err f) × (out.new ≡ out.old) ] }
{
    let (words, rest) = bytes.as_chunks::<4>();
    if words.len() > out.len() || !rest.is_empty() {
        return Err(Refusal::Head.at(0));
    }
    // By the place `k`, since nothing is proved of what `out.iter_mut().zip(..)` leaves.
    for (k, word) in words.iter().enumerate() {
        out[k] = u32::from_le_bytes(*word);
    }
    Ok(words.len())
}
