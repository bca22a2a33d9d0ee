ghost use Rattle.std.specs.Prelude.{◌≡◌, ℕ, List, length, Option, Some, None};
ghost use Rattle.rand_core.specs.Stream.{Stream};
ghost use Rattle.rand_core.specs.Steps.{fill_via_u32, stream_of, steps_u32};
ghost use Rattle.rand_chacha.specs.ChaCha.{ChaCha, next_word};
ghost use Rattle.acra_devices.specs.Draws.{DrawGives, seeded, drawn};
ghost use Rattle.acra_devices.specs.Causes.{HasCause};

use crate::device::Failed;
use rand_chacha::ChaCha20Rng;
use rand_core::SeedableRng;
use rand_core::utils::fill_bytes_via_u32;
use std::marker::Model;
use std::random::RandomSource;

/// What random bytes come from.
pub trait Random {
    /// What draws will give, where it is told.
    ghost coming: { Self → Option Stream };

    /// How often a draw has failed.
    ghost draw_faults: { Self → ℕ };

    /// Fills the buffer with what comes next.
    fn draw(&mut self, out: &mut [u8]) -> Result<(), Failed>
        ensures bytes { DrawGives (coming self.old) (coming self.new) result out.new }
        ensures cause { HasCause (draw_faults self.old) (draw_faults self.new) result };
}

/// ChaCha20 from a number. No draw fails.
#[derive(Drop)]
pub struct SureRandom {
    generator: ChaCha20Rng,
}

impl Model for SureRandom {
    ghost use Rattle.rand_chacha.specs.ChaCha.{ChaCha};

    ghost Value = { ChaCha };

    ghost view = { λ r. r.generator };
}

impl SureRandom {
    /// A generator of ChaCha20 under the seed as 8 bytes, low byte first, and 24 zero bytes.
    pub fn new(seed: u64) -> Self
        ensures { result ≡ seeded seed }
    {
        let mut bytes = [0; 32];
        bytes[..8].copy_from_slice(&seed.to_le_bytes());
        SureRandom {
            generator: ChaCha20Rng::from_seed(bytes),
        }
    }

    /// Fills the buffer with the next bytes.
    pub fn fill(&mut self, out: &mut [u8])
        ensures { (out.new, self.new) ≡ drawn (length out.old) self.old }
    {
        fill_bytes_via_u32(&mut self.generator, out);
    }
}

impl Random for SureRandom {
    ghost coming = { λ r. Some (stream_of (steps_u32 (next_word 10)) r) };

    ghost draw_faults = { λ _. 0 };

    fn draw(&mut self, out: &mut [u8]) -> Result<(), Failed> {
        self.fill(out);
        Ok(())
    }
}

/// The random bytes of the system, by its runtime. It tells nothing.
#[derive(Drop)]
pub struct SystemRandom<S: RandomSource + Drop> {
    source: S,
    faults: u64,
}

impl<S: RandomSource + Drop> SystemRandom<S> {
    /// The system's bytes, with no fault counted.
    pub fn new(source: S) -> Self
        ensures { ⟦<SystemRandom<S> as Random>⟧.draw_faults result ≡ 0 }
    {
        SystemRandom { source, faults: 0 }
    }
}

impl<S: RandomSource + Drop> Random for SystemRandom<S> {
    ghost use Rattle.std.specs.Prelude.{None};

    ghost coming = { λ _. None };

    ghost draw_faults = { λ r. r.faults };

    fn draw(&mut self, out: &mut [u8]) -> Result<(), Failed> {
        match self.source.fill_bytes(out) {
            Ok(()) => Ok(()),
            Err(_) => {
                self.faults = self.faults.saturating_add(1);
                Err(Failed)
            }
        }
    }
}
