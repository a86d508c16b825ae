// Random numbers: the bits of a counter, mixed.
ghost use Rattle.std.specs.Prelude.{◌<◌, length};

const STRIDE: u64 = 0x9e37_79b9_7f4a_7c15;

#[derive(Clone, Copy)]
pub struct Random {
    counter: u64,
}

impl Random {
    pub fn new(seed: u64) -> Random {
        Random {
            counter: seed.wrapping_mul(STRIDE),
        }
    }

    fn bits(&mut self) -> u64 {
        self.counter = self.counter.wrapping_add(STRIDE);
        let mut bits = self.counter;
        bits = (bits ^ (bits >> 30)).wrapping_mul(0xbf58_476d_1ce4_e5b9);
        bits = (bits ^ (bits >> 27)).wrapping_mul(0x94d0_49bb_1331_11eb);
        bits ^ (bits >> 31)
    }

    // A number from 0, below the count; 0 where that is 0.
    pub fn below(&mut self, count: u32) -> u32 {
        let high = (self.bits() >> 32) & 0xffff_ffff;
        high as u32 % count.max(1)
    }

    // A position in a list of this length; 0 where there is none.
    pub fn position(&mut self, length: usize) -> usize {
        self.below(u32::try_from(length).unwrap_or(u32::MAX)) as usize
    }

    pub fn one_in(&mut self, count: u32) -> bool {
        self.below(count) == 0
    }

    // One of the choices.
    pub fn pick<T: Copy>(&mut self, choices: &[T]) -> T
        requires { 0 < length choices.now }
    {
        let position = self.position(choices.len());
        if position < choices.len() {
            choices[position]
        } else {
            choices[0]
        }
    }
}
