// Numbers that look random, the same in each run from one seed.
// kept: another generator than this one would make other inputs.
#[derive(Drop)]
pub struct Random {
    state: u64,
}

impl Random {
    pub fn new(seed: u64) -> Random {
        Random { state: seed | 1 }
    }

    // A number below a bound, or 0 where the bound is 0.
    pub fn below(&mut self, bound: usize) -> usize {
        let mut x = self.state;
        x ^= x >> 12;
        x ^= x.wrapping_shl(25);
        x ^= x >> 27;
        self.state = x;
        let high = x.wrapping_mul(0x2545_f491_4f6c_dd1d) >> 16;
        let high = usize::try_from(high).unwrap_or(0);
        high.checked_rem(bound).unwrap_or(0)
    }

    // A number from a lowest to a highest one, or now and then outside of these.
    pub fn near(&mut self, lowest: usize, highest: usize) -> usize {
        let span = highest.saturating_sub(lowest).saturating_add(1);
        match self.below(60) {
            0 => self.below(lowest),
            1 => highest.saturating_add(1),
            2 => highest.saturating_add(self.below(100_100)),
            _ => lowest.saturating_add(self.below(span)),
        }
    }

    pub fn once_in(&mut self, times: usize) -> bool {
        self.below(times) == 0
    }

    // Any byte.
    pub fn byte(&mut self) -> u8 {
        u8::try_from(self.below(256)).unwrap_or(0)
    }

    // One of some bytes.
    pub fn byte_of(&mut self, bytes: &[u8]) -> u8 {
        let place = self.below(bytes.len());
        bytes.get(place).copied().unwrap_or(0)
    }
}
