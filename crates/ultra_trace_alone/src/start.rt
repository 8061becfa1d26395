//! The machine at the start of a run.

ghost use Rattle.std.specs.Prelude.{◌≡◌, ◌≤◌, true, IfOk, OnOk};
ghost use Rattle.ultra_model.specs.Ranges.{AreInRange};
ghost use Rattle.ultra_block.specs.Cut.{is_partition};
ghost use Rattle.ultra_trace_alone.specs.{BlocksAfter.IsAfter, Dealt.IsDealtOut};

use std::alloc::{AllocError, Global};
use ultra_block::{Blocks, PartitionFault, unit_count};
use ultra_isa::Program;
use ultra_model::Config;

/// The machine before its first cycle, cut for n workers: unit `u` is in block `u` modulo n. An
/// error says that memory was refused.
pub fn new_blocks(
    alloc: Global,
    config: &Config,
    program: &Program,
    workers: u8,
) -> Result<Blocks, AllocError>
    requires some { 1 ≤ workers }
    requires most { workers ≤ 64 }
    ensures start { IfOk result (IsAfter config.now program.now 0) }
    ensures dealt { IfOk result (λ b. IsDealtOut workers b.partition) }
    ensures range { AreInRange config.now }
{
    // for the prover: the settings are in their ranges
    let _valid = config.initial();
    let partition = deal_units(alloc, config, workers)?;
    match Blocks::new(alloc, config, program, partition.as_slice()) {
        Ok(blocks) => Ok(blocks),
        Err(PartitionFault::NoMemory) => Err(AllocError),
        Err(PartitionFault::BadPartition) => unreachable!(),
    }
}

/// The partition that deals the units out to n workers in turn. An error says that memory was
/// refused.
fn deal_units(alloc: Global, config: &Config, workers: u8) -> Result<Vec<u8>, AllocError>
    requires some { 1 ≤ workers }
    requires most { workers ≤ 64 }
    ensures partition { IfOk result (λ v. is_partition config.now v.items ≡ true) }
    ensures dealt { IfOk result (λ v. IsDealtOut workers v.items) }
{
    let mut partition = Vec::new(alloc);
    for unit in 0..unit_count(config) {
        partition.push((unit % usize::from(workers)) as u8)?;
    }
    Ok(partition)
}
