//! Blocks are dealt to the teams of the workers, and taken out of them again.

ghost use Rattle.std.specs.Prelude.{◌≡◌, ℕ, ◌<◌, ◌≤◌, List, [], length, slice_index_or, All, IfOk, OnOk};
ghost use Rattle.ultra_block_core.specs.BlockState.{BlockState};
ghost use Rattle.ultra_crew.specs.Tasks.{AreEmptyTeams, AreTeams, HasRoom};

use crate::task::BlockTask;
use std::alloc::{AllocError, Global};
use ultra_block_core::Block;

/// A team for each of n workers, all empty, each with room for this number of tasks. An error says
/// that memory was refused.
pub fn empty_teams(
    alloc: Global,
    workers: usize,
    room: usize,
) -> Result<Vec<Vec<BlockTask>>, AllocError>
    ensures empty { IfOk result (λ v. AreEmptyTeams workers v.items) }
    ensures room { IfOk result (λ v. All (HasRoom room) v.items) }
{
    let mut teams = Vec::with_capacity(alloc, workers)?;
    for _ in 0..workers {
        teams.push(Vec::with_capacity(alloc, room)?)?;
    }
    Ok(teams)
}

/// Deals the blocks to the teams of the workers, which are empty: each block, with its number, goes
/// to the worker of that number modulo the number of workers. Memory is asked for only where a team
/// has no room. An error says that it was refused; some blocks are then given up.
pub fn deal_to_teams(
    blocks: &mut Vec<Block>,
    teams: &mut Vec<Vec<BlockTask>>,
) -> Result<(), AllocError>
    requires some_worker { 1 ≤ length teams.old.items }
    requires empty { AreEmptyTeams (length teams.old.items) teams.old.items }
    ensures count { length teams.new.items ≡ length teams.old.items }
    ensures teams { OnOk result
        (AreTeams (length teams.old.items) teams.new.items blocks.old.items) }
    ensures blocks { OnOk result (blocks.new.items ≡ []) }
{
    let workers = teams.len();
    let mut number = 0;
    for block in blocks.drain(..) {
        teams[number % workers].push(BlockTask::new(number, block))?;
        number += 1;
    }
    Ok(())
}

/// Takes the blocks out of the teams to which n of them were dealt, and puts them into a list, in
/// the order of their numbers: it undoes `deal_to_teams`. Memory is asked for only where the list
/// has no room. An error says that it was refused; some blocks are then given up.
pub fn collect_from_teams(
    teams: &mut Vec<Vec<BlockTask>>,
    blocks: &mut Vec<Block>,
    count: usize,
) -> Result<(), AllocError>
    requires some_worker { 1 ≤ length teams.old.items }
    requires empty { blocks.old.items ≡ [] }
    ensures count { length teams.new.items ≡ length teams.old.items }
    ensures blocks { OnOk result ((bs : List BlockState) → length bs ≡ count →
        AreTeams (length teams.old.items) teams.old.items bs → blocks.new.items ≡ bs) }
    ensures teams { OnOk result ((bs : List BlockState) → length bs ≡ count →
        AreTeams (length teams.old.items) teams.old.items bs →
        AreEmptyTeams (length teams.old.items) teams.new.items) }
{
    let workers = teams.len();
    for number in (0..count).rev() {
        if let Some(task) = teams[number % workers].pop() {
            blocks.push(task.into_block())?;
        }
    }
    blocks.as_mut_slice().reverse();
    Ok(())
}
