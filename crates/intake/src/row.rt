ghost use Rattle.network.specs.Assignments.{holds, lit, put};
ghost use Rattle.network.specs.Rows.{row as row_of};
ghost use Rattle.std.specs.Prelude.{◌≡◌};

// A row of the lower nodes `low`, by its number, with a value of the node above them.
#[derive(Clone, Copy)]
pub(crate) struct Row<'l> {
    pub(crate) low: &'l [u32],
    pub(crate) number: u32,
    pub(crate) node: u32,
    pub(crate) value: bool,
}

impl Row<'_> {
    // The value that the row gives a lower node: a digit of its number. Halved at each node, since a shift by the node's place would
    // need that place below 32, and `low` may be of any length.
    fn lower(self, node: u32) -> bool
        ensures { result ≡ row_of self.entry.low.now self.entry.number node }
    {
        let mut digits = self.number;
        for x in self.low {
            if node == *x {
                return digits % 2 == 1;
            }
            digits /= 2;
        }
        false
    }

    // Whether a literal is true. Its node is its half: this crate does not rest on `clause`.
    fn literal(self, literal: u32) -> bool
        ensures { result ≡ lit (put (row_of self.entry.low.now self.entry.number) self.entry.node self.entry.value) literal }
    {
        let node = literal / 2;
        let value = if node == self.node {
            self.value
        } else {
            self.lower(node)
        };
        value == (literal % 2 == 0)
    }

    // Whether a clause holds.
    pub(crate) fn holds(self, clause: &[u32]) -> bool
        ensures { result ≡ holds (put (row_of self.entry.low.now self.entry.number) self.entry.node self.entry.value) clause.now }
    {
        clause.iter().any(|l| self.literal(*l))
    }
}
