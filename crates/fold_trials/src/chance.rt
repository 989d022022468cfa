// Numbers by chance, the same in each run.
#[derive(Drop)]
pub struct Chance {
    state: u64,
}

impl Chance {
    pub fn new(seed: u64) -> Chance {
        Chance { state: seed }
    }

    // A number below `bound`; 0 where that is 0.
    pub fn below(&mut self, bound: usize) -> usize {
        self.state = self
            .state
            .wrapping_mul(6364136223846793005)
            .wrapping_add(1442695040888963407);
        usize::try_from((self.state >> 33) % (bound.max(1) as u64)).unwrap_or(0)
    }

    // A number below `bound` of 16 bits.
    pub fn short(&mut self, bound: usize) -> u16 {
        u16::try_from(self.below(bound)).unwrap_or(0)
    }

    // Whether a thing happens that happens once in so many times.
    pub fn once_in(&mut self, times: usize) -> bool {
        self.below(times) == 0
    }

    // One of some numbers.
    pub fn pick(&mut self, numbers: &[i64]) -> i64 {
        numbers.get(self.below(numbers.len())).copied().unwrap_or(0)
    }
}
