//! The job that is measured.
ghost use Rattle.std.specs.Prelude.{◌≡◌};
ghost use Rattle.bench_channel.specs.Stirring.{stirred};

use parallel_map::Job;

/// The job that stirs a number `STEPS` times.
pub struct Stir<const STEPS: u64>;

impl<const STEPS: u64> Job<u64, u64> for Stir<STEPS> {
    ghost answer = { λ number. stirred STEPS number };

    fn run(&self, number: &u64) -> u64 {
        stir_number::<STEPS>(*number)
    }
}

/// The number, multiplied and added to `STEPS` times, without what is above 64 bits.
pub fn stir_number<const STEPS: u64>(number: u64) -> u64
    ensures { result ≡ stirred STEPS number }
{
    let mut state = number;
    for _ in 0..STEPS {
        state = state
            .wrapping_mul(6364136223846793005)
            .wrapping_add(1442695040888963407);
    }
    state
}
