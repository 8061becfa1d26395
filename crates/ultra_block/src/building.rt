//! The units of a machine before its first cycle, and blocks without units.

ghost use Rattle.std.specs.Prelude.{◌≡◌, ◌^◌, ◌<◌, ◌∷◌, [], IfOk, All, length, replicate};
ghost use Rattle.ultra_topology.specs.Numbers.{unit_count};
ghost use Rattle.ultra_block_core.specs.Building.{empty_block};
ghost use Rattle.ultra_model.specs.Machine.{start};
ghost use Rattle.ultra_block.specs.{Fresh.{first_module, first_element}, State.MakeUp};

use std::alloc::{AllocError, Global};
use ultra_block_core::Block;
use ultra_isa::{Processor, Program};
use ultra_mem::Module;
use ultra_model::Config;
use ultra_msg::Pe;
use ultra_pni::Pni;
use ultra_switch::Switch;
use ultra_topology::switch_count;
use ultra_unit_steps::ProcessingElement;

/// A memory module with its initial values. An error says that memory was refused.
#[tactic(auto, using(crate::proofs::Built::fill_steps))]
fn new_module(alloc: Global, config: &Config, number: u32) -> Result<Module, AllocError>
    requires { number < 2 ^ config.now.stages }
    ensures { IfOk result (λ b. b ≡ first_module config.now number) }
{
    let mut memory_module = Module::new(alloc, config.cells()).map_err(|_| AllocError)?;
    let size = config.net().size();
    for &(cell, word) in config.initial() {
        if cell % size == number {
            memory_module.set(cell / size, word);
        }
    }
    Ok(memory_module)
}

/// A processing element before its first step.
fn new_element(config: &Config, pe: Pe) -> ProcessingElement
    requires { pe < 2 ^ config.now.stages }
    ensures { result ≡ first_element config.now pe }
{
    ProcessingElement {
        processor: Processor::new(pe, config.net(), config.cells()),
        interface: Pni::new(config.most_open() as usize),
        issued: 0,
    }
}

/// All units of the machine before its first cycle, in one block, which keeps a copy of the
/// program. An error says that memory was refused.
#[tactic(auto, using(crate::proofs::Built::row_steps))]
pub(crate) fn fresh_block(
    alloc: Global,
    config: &Config,
    program: &Program,
) -> Result<Block, AllocError>
    ensures { IfOk result (λ b. MakeUp config.now program.now
        (replicate (unit_count config.now.stages) 0) 0 (start config.now) (b ∷ [])) }
{
    // for the prover: the settings are in their ranges
    let _initial = config.initial();
    let net = config.net();
    let mut block = Block::empty(alloc, net, program)?;
    for number in 0..switch_count(net) {
        let switch = Switch::new(
            alloc,
            config.request_places() as usize,
            config.reply_places() as usize,
            config.wait_places() as usize,
        )
        .map_err(|_| AllocError)?;
        block.put_switch(number, switch);
    }
    for number in 0..net.size() {
        block.put_module(number, new_module(alloc, config, number)?);
    }
    for pe in 0..net.size() {
        block.put_element(pe, new_element(config, pe));
    }
    Ok(block)
}

/// `count` blocks without units of the machine of this block, after as many cycles. An error says
/// that memory was refused.
pub(crate) fn empty_blocks(
    alloc: Global,
    block: &Block,
    count: usize,
) -> Result<Vec<Block>, AllocError>
    ensures { IfOk result (λ v. (length v.items ≡ count) × All
        (λ b. b ≡ record (empty_block block.now.stages block.now.program) { done = block.now.done })
        v.items) }
{
    (0..count)
        .map(|_| Block::empty_after(alloc, block.net(), block.program(), block.done()))
        .try_collect(alloc)
}
