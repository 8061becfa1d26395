//! Partitions, which name the block of each unit.

ghost use Rattle.std.specs.Prelude.{◌≡◌, ℕ, ◌<◌, ◌≤◌, All, nat_lt};
ghost use Rattle.std.specs.List.{list_all};
ghost use Rattle.ultra_topology.specs.{Numbers.unit_count, declared.TheConstants.MOST_UNITS};
ghost use Rattle.ultra_partition.specs.Cut.{is_partition};
ghost use Rattle.ultra_block.specs.Dealt.{IsLastNamed};

use std::alloc::AllocError;
use thiserror::Error;
use ultra_model::Config;
use ultra_topology::switch_count;

/// The most blocks that a machine is cut into.
pub const MOST_BLOCKS: u8 = 64;

/// Why a machine isn't cut by a partition.
#[derive(Clone, Copy, PartialEq, Eq, Debug, Drop, Error)]
pub enum PartitionFault {
    /// Memory was refused.
    #[error("no memory")]
    NoMemory,
    /// The partition does not name a block from 0 to 63 for each unit, and for no other.
    #[error("bad partition")]
    BadPartition,
}

impl From<AllocError> for PartitionFault {
    ghost use Rattle.ultra_block.specs.declared.partition.PartitionFault.TheVariants.{NoMemory};

    ghost from_gives = { λ _ fault. fault ≡ NoMemory };

    fn from(_: AllocError) -> PartitionFault {
        PartitionFault::NoMemory
    }
}

/// How many units a machine of these settings has: at most 320.
pub fn unit_count(config: &Config) -> usize
    ensures few { result ≤ MOST_UNITS }
    ensures value { result ≡ unit_count config.now.stages }
{
    let net = config.net();
    switch_count(net) + 2 * net.size() as usize
}

/// How many blocks a partition makes: one more than the greatest number in it, and at least one.
pub(crate) fn count_blocks(partition: &[u8]) -> usize
    ensures named { All (λ b. b < result) partition.now }
    ensures last { IsLastNamed partition.now result }
{
    partition.iter().max().map_or(1, |last| *last as usize + 1)
}

/// Whether each is a block from 0 to 63.
fn are_blocks(partition: &[u8]) -> bool
    ensures { result ≡ list_all (λ (b : ℕ). nat_lt b 64) partition.now }
{
    partition.iter().all(|block| *block < MOST_BLOCKS)
}

/// Whether the partition names a block from 0 to 63 for each unit of a machine of these settings,
/// and no more.
pub(crate) fn names_all_units(config: &Config, partition: &[u8]) -> bool
    ensures { result ≡ is_partition config.now partition.now }
{
    partition.len() == unit_count(config) && are_blocks(partition)
}
