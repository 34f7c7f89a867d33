//! A counter that contracts alone read. It takes no memory, and its methods do nothing at run time.
ghost use Rattle.std.specs.Prelude.{◌≡◌, ℕ, ◌+◌, min};
ghost use Rattle.std.specs.Borrow.{ftrue};

use std::marker::Model;

/// A whole number that has no greatest value and takes no memory.
#[derive(Drop)]
pub struct Counter {
    ghost count: { ℕ },
}

impl Model for Counter {
    ghost Value = { ℕ };

    ghost view = { λ c. c.count };

    ghost also_owns = { λ _. ftrue };
}

impl Counter {
    fn of() -> Counter
        ghost n: { ℕ }
        ensures { result ≡ n }
    {
        Counter {}
    }

    // The proof of a caller picks the number, and can pick it from `_at`.
    fn set(&mut self, _at: usize)
        ghost n: { ℕ }
        ensures { self.new ≡ n }
    {
        *self = Counter::of();
    }

    /// Makes a counter at 0.
    pub fn zero() -> Counter
        ensures { result ≡ 0 }
    {
        Counter::of()
    }

    /// Adds one.
    pub fn tick(&mut self)
        ensures { self.new ≡ self.old + 1 }
    {
        self.set(0);
    }

    /// Sets the counter to a place.
    pub(crate) fn place(&mut self, at: usize)
        ensures { self.new ≡ at }
    {
        self.set(at);
    }

    /// Keeps the lesser of the counter and a place.
    pub(crate) fn lower(&mut self, at: usize)
        ensures { self.new ≡ min self.old at }
    {
        self.set(at);
    }
}
