// Signatures of clauses, and the tests that spare a walk.
ghost use Rattle.std.specs.Prelude.{◌≡◌, ℕ, true, false, List, None, nat_le};
ghost use Rattle.network.specs.Signature.{signature, Covers, within, missing};
ghost use Rattle.network.specs.Subsumption.{part_of, fits};

// 128 bits in two halves of 64 (docs/DECISIONS.md, 9), to which each literal of a clause adds the bit of its number modulo 128.
#[derive(Clone, Copy, PartialEq, Eq, Debug)]
pub struct Signature {
    pub low: u64,
    pub high: u64,
}

impl Signature {
    // The signature of a clause.
    pub fn of(clause: &[u32]) -> Signature
        ensures { (result.low, result.high) ≡ signature clause.now }
    {
        let mut low: u64 = 0;
        let mut high: u64 = 0;
        for l in clause {
            let place = *l % 128;
            if place < 64 {
                low |= 1 << place;
            } else {
                high |= 1 << (place - 64);
            }
        }
        Signature { low, high }
    }

    // Whether no bit is missing in the other: if one is, a clause of this signature is no part of any that the other covers.
    pub fn may_subsume(self, other: Signature) -> bool
        ensures test { result ≡ within (self.low, self.high) (other.low, other.high) }
        ensures spares { (C D : List ℕ) → signature C ≡ (self.low, self.high) → Covers (other.low, other.high) D → result ≡ false → part_of C D ≡ false }
    {
        self.low & other.low == self.low && self.high & other.high == self.high
    }

    // Whether at most one bit is missing in the other: if two are, a clause of this signature does not fit any that the other covers,
    // not even but for one literal.
    pub fn may_fit(self, other: Signature) -> bool
        ensures test { result ≡ nat_le (missing (self.low, self.high) (other.low, other.high)) 1 }
        ensures spares { (C D : List ℕ) → signature C ≡ (self.low, self.high) → Covers (other.low, other.high) D → result ≡ false → fits C D ≡ (false, None) }
    {
        // The bits that the other lacks.
        let low = self.low - (self.low & other.low);
        let high = self.high - (self.high & other.high);
        match (low, high) {
            (0, bits) => bits == 0 || bits.is_power_of_two(),
            (bits, 0) => bits.is_power_of_two(),
            _ => false,
        }
    }
}
