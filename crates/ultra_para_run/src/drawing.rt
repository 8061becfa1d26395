//! Numbers and processing elements, drawn from a number.

ghost use Rattle.std.specs.Prelude.{◌≡◌, ◌<◌, ◌≤◌, ◌-◌, ◌/◌, ◌^◌};
ghost use Rattle.ultra_para_run.specs.SeededSchedule.{next_number};

/// What a number of the generator is multiplied by.
const MULTIPLIER: u64 = 6364136223846793005;

/// What is added to it then.
const INCREMENT: u64 = 1442695040888963407;

/// The next number: a linear congruential generator of 64 bits.
pub(crate) fn next_number(x: u64) -> u64
    ensures { result ≡ next_number x }
{
    MULTIPLIER.wrapping_mul(x).wrapping_add(INCREMENT)
}

/// The highest bits of a number, one for each stage.
pub(crate) fn highest_bits(x: u64, stages: u32) -> u32
    requires some { 1 ≤ stages }
    requires few { stages ≤ 6 }
    ensures value { result ≡ x / 2 ^ (64 - stages) }
    ensures below { result < 2 ^ stages }
{
    (x >> (64 - stages)) as u32
}
