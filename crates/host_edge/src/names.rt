ghost use Rattle.std.specs.Prelude.{None};

use crate::no::{OpenNo, seed_no};
use lake_io::Names;
use rand_chacha::ChaCha20Rng;
use rand_core::{Rng, SeedableRng};
use std::random::RandomSource;

/// Numbers of a generator that the system seeds, so that two runs don't give the same ones. It tells none of them.
#[derive(Drop)]
pub struct HostNames {
    generator: ChaCha20Rng,
}

impl HostNames {
    /// The seed is asked of the system here alone, so no later call can fail.
    pub fn new(rt: &HostRuntime) -> Result<HostNames, OpenNo> {
        let mut seed = [0u8; 32];
        rt.fill_bytes(&mut seed).map_err(seed_no)?;
        Ok(HostNames {
            generator: ChaCha20Rng::from_seed(seed),
        })
    }

    fn next_half(&mut self) -> u64 {
        self.generator.next_u64()
    }
}

impl Names for HostNames {
    ghost drawn = { λ _. None };

    fn next(&mut self) -> u128 {
        let high = u128::from(self.next_half());
        let low = u128::from(self.next_half());
        (high << 64) | low
    }
}
