//! Numbers that look like chance, and are the same in every run: each follows from the one before.

/// The multiplier and the increment of a linear congruential generator of 64 bits (Knuth, The Art
/// of Computer Programming, volume 2, section 3.3.4, table 1, line 26).
const MULTIPLIER: u64 = 6_364_136_223_846_793_005;

const INCREMENT: u64 = 1_442_695_040_888_963_407;

/// Where the numbers have come to.
#[derive(Drop)]
pub struct Chance {
    state: u64,
}

impl Chance {
    /// The numbers that follow from this one.
    pub fn starting_from(state: u64) -> Chance {
        Chance { state }
    }

    /// The next number of 31 bits.
    fn next_number(&mut self) -> u64 {
        self.state = self.state.wrapping_mul(MULTIPLIER).wrapping_add(INCREMENT);
        self.state >> 33
    }

    /// The next octet.
    pub fn octet(&mut self) -> u8 {
        (self.next_number() % 256) as u8
    }

    /// The next place in a list of so many. 0 where it is empty.
    pub fn place(&mut self, count: usize) -> usize {
        if count == 0 {
            return 0;
        }
        self.next_number() as usize % count
    }
}
