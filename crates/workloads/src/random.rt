//! Pseudo-random numbers, the same in each run of a seed.

/// Numbers of a linear congruential generator, by the constants of Knuth's MMIX.
#[derive(Clone, Copy)]
pub(crate) struct Random {
    state: u64,
}

impl Random {
    /// The numbers of a seed.
    pub(crate) fn of(seed: u64) -> Random {
        let mut random = Random {
            state: seed ^ 0x9e37_79b9_7f4a_7c15,
        };
        let _first = random.next();
        random
    }

    /// The next number, below 2 to the 31.
    pub(crate) fn next(&mut self) -> usize {
        self.state = self
            .state
            .wrapping_mul(6364136223846793005)
            .wrapping_add(1442695040888963407);
        (self.state >> 33) as usize
    }

    /// The next number as one of the first `n`; 0 where there are none.
    pub(crate) fn below(&mut self, n: usize) -> usize {
        let next = self.next();
        if n == 0 {
            return 0;
        }
        next % n
    }

    /// A number from `least` on, one of `n`.
    pub(crate) fn from(&mut self, least: usize, n: usize) -> usize {
        least.saturating_add(self.below(n))
    }
}
