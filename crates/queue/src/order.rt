// What an order is.
ghost use Rattle.std.specs.Prelude.{◌≡◌, ℕ, Bool};
ghost use Rattle.queue.specs.Orders.{Orders};

// The order of a kind of entry: any two different entries stand strictly one before the other.
pub trait Order {
    // The test of two entries that `before` makes.
    ghost ahead: { Self → ℕ → ℕ → Bool };

    // Whether `a` stands before `b`.
    fn before(&self, a: u32, b: u32) -> bool
        ensures { result ≡ ahead self.now a b };

    // What makes that an order.
    ghost orders: { (s : Self) → Orders (ahead s) };
}
