// The table of recorded answers: a row is a line of numbers, and a list in it is its length and then its words.
ghost use Rattle.std.specs.Prelude.{◌≤◌, length};

use clause::{Lit, Signature};

// A pair of clauses, and the recorded answers.
#[derive(Drop)]
pub struct Row<'a> {
    pub a: &'a [u32],
    pub b: &'a [u32],
    // by node: 0 false, 1 true, 2 unknown
    pub values: &'a [u32],
    // None where no literal of one stands in the other with the opposite sign
    pub pivot: Option<Lit>,
    // of `ordered_subsume`, and of `ordered_subsume_execpt_one`: None where the row has more than one literal for that one
    pub part: bool,
    pub but_one: Option<(bool, Option<Lit>)>,
    pub simplified: Option<&'a [u32]>,
    pub resolvent: Option<&'a [u32]>,
    // the literal that the first clause loses, and what is left of it
    pub lost: Option<Lit>,
    pub rest: &'a [u32],
    // of both clauses; None where the row has not their eight words
    pub signatures: Option<(Signature, Signature)>,
    pub may_subsume: bool,
    pub may_fit: bool,
}

// Writes the numbers of a line, which stand apart by what is no digit, as far as there is room, and says how many they are.
pub fn numbers(line: &[u8], out: &mut [u32]) -> usize
    ensures { result ≤ length out.old }
{
    let mut n = 0;
    let mut value: u32 = 0;
    let mut inside = false;
    for b in line {
        let digit = u32::from(*b ^ b'0');
        if digit <= 9 {
            value = value.wrapping_mul(10).wrapping_add(digit);
            inside = true;
        } else if inside && n < out.len() {
            out[n] = value;
            n += 1;
            value = 0;
            inside = false;
        }
    }
    if inside && n < out.len() {
        out[n] = value;
        n += 1;
    }
    n
}

// The list at the front, and the words after it.
fn list(words: &[u32]) -> Result<(&[u32], &[u32]), &'static str> {
    let short = "a row that ends too early";
    let (n, rest) = words.split_first().ok_or(short)?;
    rest.split_at_checked(*n as usize).ok_or(short)
}

// The literal that a list begins with, if any.
fn first(list: &[u32]) -> Option<Lit> {
    list.first().map(|word| Lit::from(*word))
}

// A half of a signature of its two words, the low one first.
fn half(low: u32, high: u32) -> u64 {
    u64::from(high) << 32 | u64::from(low)
}

// The signatures of both clauses, of the words of their halves.
fn signatures(words: &[u32]) -> Option<(Signature, Signature)> {
    let [a0, a1, a2, a3, b0, b1, b2, b3] = words else {
        return None;
    };
    let a = Signature {
        low: half(*a0, *a1),
        high: half(*a2, *a3),
    };
    let b = Signature {
        low: half(*b0, *b1),
        high: half(*b2, *b3),
    };
    Some((a, b))
}

// The row that the numbers are, or what is wrong with it.
pub fn read_row(words: &[u32]) -> Result<Row<'_>, &'static str> {
    let (a, words) = list(words)?;
    let (b, words) = list(words)?;
    let (values, words) = list(words)?;
    let (pivot, words) = list(words)?;
    let (odd, words) = list(words)?;
    let (simplified, words) = list(words)?;
    let (resolvent, words) = list(words)?;
    let (lost, words) = list(words)?;
    let (rest, words) = list(words)?;
    let (flags, words) = list(words)?;
    let (signs, _) = list(words)?;
    let [part, yes, may_subsume, may_fit, left, resolved, ..] = flags else {
        return Err("a row without its flags");
    };
    Ok(Row {
        a,
        b,
        values,
        pivot: first(pivot),
        part: *part == 1,
        but_one: (odd.len() <= 1).then_some((*yes == 1, first(odd))),
        simplified: (*left == 1).then_some(simplified),
        resolvent: (*resolved == 1).then_some(resolvent),
        lost: first(lost),
        rest,
        signatures: signatures(signs),
        may_subsume: *may_subsume == 1,
        may_fit: *may_fit == 1,
    })
}
