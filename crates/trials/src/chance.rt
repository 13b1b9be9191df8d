// Numbers by chance, the same for the same seed, and the kinds of numbers that goods and shelves have.
use rand_core::{Rng, SeedableRng};
use rand_xoshiro::SplitMix64;
use std::fmt;

// The state of a generator, and not the generator: that can't be copied.
#[derive(Clone, Copy)]
pub struct Chance {
    state: u64,
}

// The generator adds this to its state before it mixes it.
const STEP: u64 = 0x9e37_79b9_7f4a_7c15;

// A bijection of 64 bits that leaves no pattern. The generator mixes what its state is after a step, which is taken back here.
fn mix(number: u64) -> u64 {
    SplitMix64::seed_from_u64(number.wrapping_sub(STEP)).next_u64()
}

impl Chance {
    pub fn new(seed: u64) -> Chance {
        Chance { state: mix(seed) }
    }

    pub fn any(&mut self) -> u64 {
        self.state = self.state.wrapping_add(STEP);
        mix(self.state)
    }

    // A number below the limit, or 0 where the limit is 0.
    pub fn below(&mut self, limit: u64) -> u64 {
        self.any().checked_rem(limit).unwrap_or(0)
    }
}

#[derive(Clone, Copy)]
pub enum Numbers {
    InARow,
    Random,
    SameLowBits,
    Highest,
}

impl Numbers {
    // The number of the good, or of the shelf, that is counted so.
    pub fn at(self, count: u64) -> u64 {
        match self {
            Numbers::InARow => count,
            Numbers::Random => mix(count.wrapping_add(1)),
            Numbers::SameLowBits => count.wrapping_mul(1 << 49).wrapping_add(count / 32768),
            Numbers::Highest => u64::MAX.wrapping_sub(count),
        }
    }
}

impl fmt::Display for Numbers {
    fn fmt<W: fmt::Write>(&self, f: &mut fmt::Formatter<W>) -> fmt::Result {
        f.write_str(match self {
            Numbers::InARow => "in a row from 0",
            Numbers::Random => "by chance",
            Numbers::SameLowBits => "with the same low 49 bits",
            Numbers::Highest => "in a row down from 2^64 - 1",
        })
    }
}
