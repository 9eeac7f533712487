ghost use Rattle.std.specs.Prelude.{◌≤◌};

use clause::Lbool;

// A network that is being simplified: the highest node, which nodes are frozen, what values are known, which nodes were taken out,
// and the store of its clauses.
#[derive(Drop)]
pub struct Simplifier<S> {
    pub top: u32,
    pub frozen: [bool; 1024],
    pub values: [Lbool; 1024],
    pub taken_out: [bool; 1024],
    pub store: S,
    ghost small: { top ≤ 1023 },
}
