// Numbers that look like chance, made from numbers.
ghost use Rattle.std.specs.Prelude.{◌≡◌};
ghost use Rattle.rand_core.specs.Stream.{next_u64};
ghost use Rattle.rand_core.specs.Steps.{stream_of};
ghost use Rattle.rand_xoshiro.specs.SplitMix64.{splitmix_steps};

use rand_core::{Rng, SeedableRng};
use rand_xoshiro::SplitMix64;

// Mixes the bits of a number, so that numbers that are close give numbers that are not: the first word of splitmix64.
pub fn mix(number: u64) -> u64
    ensures { result ≡ (next_u64 (stream_of splitmix_steps number)).0 }
{
    SplitMix64::seed_from_u64(number).next_u64()
}
