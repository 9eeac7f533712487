// Nodes, literals and known values.
ghost use Rattle.clause.specs.Types.{told, told_by, is};
ghost use Rattle.network.specs.Assignments.{node, opposite};
ghost use Rattle.network.specs.Values.{sign};
ghost use Rattle.std.specs.Option.{option_map};
ghost use Rattle.std.specs.Prelude.{◌≡◌, ◌/◌, ◌%◌, ◌∷◌, if◌then◌else◌, true, false, not, is_some, Some, decimal, nat_eq};

use std::fmt;

// A node of the network, by its number.
#[derive(Clone, Copy, PartialEq, Eq, Debug)]
pub struct Var {
    pub number: u32,
}

// A node with a sign. Node 0 is false, so that the literal 0 is false and 1 true.
#[derive(Clone, Copy, PartialEq, Eq, Debug)]
pub struct Lit {
    pub word: u32,
}

// The literal that stands in a clause as this word.
impl From<u32> for Lit {
    ghost from_gives = { λ w r. r.word ≡ w };

    fn from(word: u32) -> Lit {
        Lit { word }
    }
}

// A literal as text: the node where it is true, and the node behind `!` where it is false.
impl fmt::Display for Lit {
    ghost output = { λ l. Some (if nat_eq (l.word % 2) 0 then decimal (l.word / 2) else 33 ∷ decimal (l.word / 2)) };

    fn fmt<W: fmt::Write>(&self, f: &mut fmt::Formatter<W>) -> fmt::Result {
        let node = self.var().number;
        if self.polarity() {
            write!(f, "{node}")
        } else {
            write!(f, "!{node}")
        }
    }
}

impl Lit {
    // The node that it names.
    pub fn var(self) -> Var
        ensures { result.number ≡ node self.word }
    {
        Var {
            number: self.word / 2,
        }
    }

    // Whether it says that its node is true.
    pub fn polarity(self) -> bool
        ensures { result ≡ sign self.word }
    {
        self.word % 2 == 0
    }

    // The literal of the same node with the other sign. The source's operators on literals and values are named functions
    // here (docs/DIFFERENCES.md).
    pub fn opposite(self) -> Lit
        ensures { result.word ≡ opposite self.word }
    {
        Lit {
            word: self.word ^ 1,
        }
    }
}

// What is known of a node or a literal. An own type and no Option of bool, since it is the source's, with its questions.
#[derive(Clone, Copy, PartialEq, Eq, Debug)]
pub enum Lbool {
    False,
    True,
    Unknown,
}

// The value, known.
impl From<bool> for Lbool {
    ghost from_gives = { λ b r. told r ≡ Some b };

    fn from(value: bool) -> Lbool {
        if value { Lbool::True } else { Lbool::False }
    }
}

// What a byte tells: 0 false, 1 true, and any other nothing.
impl From<u8> for Lbool {
    ghost from_gives = { λ n r. told r ≡ told_by n };

    fn from(byte: u8) -> Lbool {
        match byte {
            0 => Lbool::False,
            1 => Lbool::True,
            _ => Lbool::Unknown,
        }
    }
}

impl Lbool {
    // Whether it is known to be true.
    pub fn is_true(self) -> bool
        ensures { result ≡ is true (told self) }
    {
        self == Lbool::True
    }

    // Whether it is known to be false.
    pub fn is_false(self) -> bool
        ensures { result ≡ is false (told self) }
    {
        self == Lbool::False
    }

    // Whether nothing is known.
    pub fn is_none(self) -> bool
        ensures { result ≡ not (is_some (told self)) }
    {
        self == Lbool::Unknown
    }

    // What is then known of the opposite.
    pub fn opposite(self) -> Lbool
        ensures { told result ≡ option_map not (told self) }
    {
        match self {
            Lbool::False => Lbool::True,
            Lbool::True => Lbool::False,
            Lbool::Unknown => Lbool::Unknown,
        }
    }
}
