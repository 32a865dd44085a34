//! Numbers that look random, the same for each run of a seed.
ghost use Rattle.std.specs.Prelude.{◌<◌};

/// A generator by Marsaglia's xorshift with 64 bits.
#[derive(Clone, Copy)]
pub(crate) struct Random {
    state: u64,
}

impl Random {
    /// That of a thread in the run of this seed.
    pub(crate) fn new(seed: u64, thread: u64) -> Random {
        let mut random = Random {
            // Never 0, which would stay.
            state: seed
                .wrapping_mul(0x9e37_79b9_7f4a_7c15)
                .wrapping_add(thread)
                | 1 << 40,
        };
        for _ in 0..8 {
            random.next();
        }
        random
    }

    fn next(&mut self) -> u64 {
        self.state ^= self.state << 13;
        self.state ^= self.state >> 7;
        self.state ^= self.state << 17;
        self.state
    }

    /// A number below the limit.
    pub(crate) fn below(&mut self, limit: u32) -> u32
        requires { 0 < limit }
        ensures { result < limit }
    {
        (self.next() % u64::from(limit)) as u32
    }

    /// True once in so many times.
    pub(crate) fn is_one_in(&mut self, many: u32) -> bool
        requires { 0 < many }
    {
        self.below(many) == 0
    }
}
