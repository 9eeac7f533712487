// Numbers that seem random, the same in each run.
#[derive(Drop)]
pub struct Random {
    state: u32,
}

impl Random {
    // The first state.
    pub fn new() -> Random {
        Random { state: 2463534242 }
    }

    // The next number below `end`, or 0 where that is 0.
    pub fn below(&mut self, end: u32) -> u32 {
        let mut x = self.state;
        x ^= x << 13;
        x ^= x >> 17;
        x ^= x << 5;
        self.state = x;
        (x / 8).checked_rem(end).unwrap_or(0)
    }
}
