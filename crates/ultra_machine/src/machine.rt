//! The whole machine. It is the 1983 paper's; its timing, sizes and limits are this project's
//! profile.

ghost use Rattle.std.specs.Prelude.{◌≡◌, ◌-◌, ◌^◌, ◌<◌, ◌↔◌, true, false, IfOk, OnOk, IfErr};
ghost use Rattle.ultra_model.specs.Machine.{start, is_quiet as quiet, lane_at, replies_at, module_at, element_at, site};
ghost use Rattle.ultra_model.specs.Phases.{cycle as next_cycle};
ghost use Rattle.ultra_unit_steps.specs.Elements.{element_of};
ghost use Rattle.ultra_block.specs.{Cut.is_partition, Dealt.IsLastNamed};
ghost use Rattle.ultra_machine.specs.MachineState.{MachineState};

use std::alloc::{AllocError, Global};
use std::marker::Model;
use ultra_block::{Blocks, PartitionFault};
use ultra_isa::Program;
use ultra_mem::Module;
use ultra_model::{Config, Stop};
use ultra_msg::{Event, Pe};
use ultra_switch::{ToMm, ToPe};
use ultra_unit_steps::ProcessingElement;

/// A machine: its settings, its program, and its units as they are after some cycles.
///
/// All units are in one block. `into_blocks` cuts the machine otherwise.
#[derive(Drop)]
pub struct Machine {
    blocks: Blocks,
}

impl Model for Machine {
    ghost Value = { MachineState };

    ghost view = { λ m. record {
      settings = m.blocks.config;
      program = m.blocks.program;
      state = m.blocks.machine;
    } };

    ghost invariant = { λ m. m.blocks.count ≡ 1 };
}

impl Machine {
    /// The machine of these settings and this program before its first cycle: all registers and
    /// cells are 0 except the initial ones, and nothing is on its way.
    ///
    /// It keeps its own copies. An error says that memory was refused.
    pub fn new(alloc: Global, config: &Config, program: &Program) -> Result<Machine, AllocError>
        ensures { IfOk result (λ m.
            m ≡ record { settings = config.now; program = program.now; state = start config.now }) }
    {
        let blocks = Blocks::in_one_block(alloc, config, program)?;
        Ok(Machine { blocks })
    }

    /// The machine makes one cycle: replies, memory, requests, processors. It takes no memory and
    /// always succeeds.
    ///
    /// The count of cycles has to be below `2^32 - 1`.
    pub fn cycle(&mut self)
        requires { self.old.state.cycles < 2 ^ 32 - 1 }
        ensures { self.new ≡ record self.old {
          state = next_cycle self.old.settings self.old.program self.old.state;
        } }
    {
        self.blocks.cycle();
    }

    /// The same machine, cut into blocks: the partition names the block of each unit, 0 to 63.
    /// Switches come first, by stage, then modules, then processing elements. Blocks may be empty.
    ///
    /// `BadPartition` says that the partition is not of this length, or that a block is above 63;
    /// it is found before memory is asked for. `NoMemory` says that memory was refused. With either
    /// the same machine is given back.
    pub fn into_blocks(
        self,
        alloc: Global,
        partition: &[u8],
    ) -> Result<Blocks, (Machine, PartitionFault)>
        ensures state { IfOk result (λ b. b ≡ record {
          config = self.settings;
          program =
              self.program;
          partition = partition.now;
          count = b.count;
          machine = self.state;
        }) }
        ensures count { IfOk result (λ b. IsLastNamed partition.now b.count) }
        ensures accepted { OnOk result (is_partition self.settings partition.now ≡ true) }
        ensures refused { IfErr result (λ e. (e.1 ≡ PartitionFault.BadPartition) ↔
            (is_partition self.settings partition.now ≡ false)) }
        ensures given_back { IfErr result (λ e. e.0 ≡ self) }
    {
        match self.blocks.recut(alloc, partition) {
            Ok(blocks) => Ok(blocks),
            Err((blocks, fault)) => Err((Machine { blocks }, fault)),
        }
    }

    /// How many cycles the machine has made.
    pub fn done(&self) -> u32
        ensures { result ≡ self.now.state.cycles }
    {
        self.blocks.done()
    }

    /// The machine's settings.
    pub fn config(&self) -> &Config
        ensures { result.now ≡ self.now.settings }
    {
        self.blocks.config()
    }

    /// What happened in the last cycle: deliveries by processing element, servings by module,
    /// combinations by stage, position and arrival, issues by processing element.
    pub fn events(&self) -> &[Event]
        ensures { result.now ≡ self.now.state.events }
    {
        self.blocks.events_of_one()
    }

    /// The processing elements that faulted in the last cycle, by number.
    pub fn stops(&self) -> &[Stop]
        ensures { result.now ≡ self.now.state.stops }
    {
        self.blocks.stops_of_one()
    }

    /// The queue toward memory at a memory-side position of a stage, with its wait buffer. Both are
    /// counted from 0: the stage is below the number of stages, the position below that of
    /// processing elements.
    pub fn lane(&self, stage: u32, position: u32) -> &ToMm
        requires stage { stage < self.now.settings.stages }
        requires position { position < 2 ^ self.now.settings.stages }
        ensures state { result.now.lane ≡ lane_at self.now.state stage position }
        ensures requests { result.now.request_places ≡ self.now.settings.request_places }
        ensures waits { result.now.wait_places ≡ self.now.settings.wait_places }
    {
        self.blocks.lane(stage, position)
    }

    /// The queue toward the processing elements at a PE-side position of a stage. Both are counted
    /// from 0: the stage is below the number of stages, the position below that of processing
    /// elements.
    pub fn reply_queue(&self, stage: u32, position: u32) -> &ToPe
        requires stage { stage < self.now.settings.stages }
        requires position { position < 2 ^ self.now.settings.stages }
        ensures state { result.now.replies ≡ replies_at self.now.state stage position }
        ensures places { result.now.places ≡ self.now.settings.reply_places }
    {
        self.blocks.reply_queue(stage, position)
    }

    /// A memory module, by its number from 0. There are as many as processing elements.
    pub fn memory_module(&self, number: u32) -> &Module
        requires { number < 2 ^ self.now.settings.stages }
        ensures { result.now ≡ module_at self.now.state number }
    {
        self.blocks.memory_module(number)
    }

    /// A processing element, by its number from 0.
    pub fn element(&self, pe: Pe) -> &ProcessingElement
        requires { pe < 2 ^ self.now.settings.stages }
        ensures state { element_of result.now ≡ element_at self.now.state pe }
        ensures site { result.now.processor.site ≡ site self.now.settings pe }
        ensures most_open { result.now.interface.most_open ≡ self.now.settings.most_open }
    {
        self.blocks.element(pe)
    }

    /// Whether every processing element has halted or faulted, and nothing is on its way or open.
    pub fn is_quiet(&self) -> bool
        ensures { result ≡ quiet self.now.state }
    {
        self.blocks.is_quiet()
    }
}
