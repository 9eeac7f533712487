ghost use Rattle.image.specs.Faults.{fault, number_of};
ghost use Rattle.std.specs.Prelude.{◌≡◌, ◌++◌, Some, codes, decimal};

use std::fmt;

// Why a call is refused, by its number in the table of refusals, and where: a node, a number, a size, or 0.
#[derive(Clone, Copy, PartialEq, Eq, Debug)]
pub struct Fault {
    pub number: u32,
    pub place: u32,
}

// The line that a program prints for it.
impl fmt::Display for Fault {
    ghost output = { λ f. Some (codes "refused " ++ (decimal f.number ++ (codes " " ++ decimal f.place))) };

    fn fmt<W: fmt::Write>(&self, f: &mut fmt::Formatter<W>) -> fmt::Result {
        let number = self.number;
        let place = self.place;
        write!(f, "refused {number} {place}")
    }
}

// The table of refusals: what is wrong, and what the place of the fault is.
#[derive(Clone, Copy, PartialEq, Eq, Debug)]
pub enum Refusal {
    // The counts and offsets of an image do not fit; place 0.
    Head = 1,
    // A clause's length is 0 or passes the end of its run; place the node.
    Cut = 2,
    // The literals of a clause do not rise strictly, or name a node twice; place the node.
    Order = 3,
    // The last literal of a clause is not of the run's node; place the node.
    Owner = 4,
    // The clauses of a node name over eight lower nodes besides 0; place the node.
    Wide = 5,
    // A row allows the node no value; place the node.
    Clash = 6,
    // The number of clauses is wrong; place 0.
    Count = 7,
    // A node to freeze is not in the image; place the number.
    Stranger = 8,
    // A room is odd, under 2 or over 4,096; place the room.
    Room = 9,
    // A store or a pass is lent too few words; place the number it needs.
    Short = 10,
    // An image has too many clauses for the room; place their number, with node 0's.
    Full = 11,
    // A node that is not frozen is loose; place the lowest.
    Loose = 12,
    // More than half of the room is live; place the number of live clauses.
    Half = 13,
    // The output is too small for the image; place the number of words that it needs.
    Margin = 14,
}

impl Refusal {
    // The fault of this number at a place.
    pub fn at(self, place: u32) -> Fault
        ensures { result ≡ fault (number_of self) place }
    {
        Fault {
            number: self as u32,
            place,
        }
    }
}
