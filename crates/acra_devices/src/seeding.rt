ghost use Rattle.std.specs.Prelude.{◌≡◌, ◌-◌, ◌+◌, ◌^◌, ◌↔◌, min, Some, IsErr, Contains};
ghost use Rattle.rand_core.specs.Steps.{stream_of, steps_u32};
ghost use Rattle.rand_chacha.specs.ChaCha.{next_word};
ghost use Rattle.acra_devices.specs.Draws.{DrawGives, seeded};
ghost use Rattle.acra_devices.specs.Causes.{HasCause};

use crate::calls::Calls;
use crate::device::Failed;
use crate::random::{Random, SureRandom};

/// ChaCha20 from a number, as `SureRandom`. Exactly the draws whose numbers are listed fail, counted
/// from 0. A draw that fails uses none of the bytes that come.
#[derive(Drop)]
pub struct SeedRandom {
    random: SureRandom,
    calls: Calls,
    faults: u64,
}

impl SeedRandom {
    ghost use Rattle.acra_devices.specs.Seeding.{seed_state, seed_failing, seed_calls};

    /// A generator under the seed as 8 bytes, low byte first, and 24 zero bytes.
    pub fn new(seed: u64, failing: Vec<u64>) -> Self
        ensures state { seed_state result ≡ seeded seed }
        ensures failing { seed_failing result ≡ failing.items }
        ensures calls { seed_calls result ≡ 0 }
        ensures faults { ⟦<SeedRandom as Random>⟧.draw_faults result ≡ 0 }
    {
        SeedRandom {
            random: SureRandom::new(seed),
            calls: Calls::new(failing),
            faults: 0,
        }
    }
}

impl Random for SeedRandom {
    ghost use Rattle.acra_devices.specs.Seeding.{seed_state, seed_failing, seed_calls};

    ghost coming = { λ r. Some (stream_of (steps_u32 (next_word 10)) r.random) };

    ghost draw_faults = { λ r. r.faults };

    fn draw(&mut self, out: &mut [u8]) -> Result<(), Failed>
        ensures bytes { DrawGives (Some (stream_of (steps_u32 (next_word 10)) (seed_state self.old))) (Some (stream_of (steps_u32 (next_word 10)) (seed_state self.new))) result out.new }
        ensures cause { HasCause (⟦<SeedRandom as Random>⟧.draw_faults self.old) (⟦<SeedRandom as Random>⟧.draw_faults self.new) result }
        ensures exactly { IsErr result ↔ Contains (seed_failing self.old) (seed_calls self.old) }
        ensures counted { seed_calls self.new ≡ min (seed_calls self.old + 1) (2 ^ 64 - 1) }
        ensures listed { seed_failing self.new ≡ seed_failing self.old }
    {
        if self.calls.fails() {
            self.faults = self.faults.saturating_add(1);
            return Err(Failed);
        }
        self.random.draw(out)
    }
}
