//! The whole machine, cut into blocks.

ghost use Rattle.std.specs.Prelude.{◌≡◌, ◌-◌, ◌^◌, ◌<◌, ◌↔◌, ◌==◌, false, length, replicate, true, IfErr, IfOk, IsErrOf, OnOk};
ghost use Rattle.ultra_model.specs.Machine.{module_at, element_at, is_quiet, lane_at, replies_at, site, start};
ghost use Rattle.ultra_model.specs.Phases.{cycle as next_cycle};
ghost use Rattle.ultra_topology.specs.Numbers.{unit_count};
ghost use Rattle.ultra_partition.specs.{Cut.{block_at, home, is_partition}, Holding.holds};
ghost use Rattle.ultra_cycle_law.specs.Frame.{at_port};
ghost use Rattle.ultra_block.specs.{Dealt.IsLastNamed, State.{AreParts, BlocksState, events_left, put_together, stops_left}};
ghost use Rattle.ultra_block_core.specs.Holding.{IsSetOf};
ghost use Rattle.ultra_unit_steps.specs.Elements.{element_of};

use crate::building::{empty_blocks, fresh_block};
use crate::cycle::make_cycle;
use crate::partition::{PartitionFault, count_blocks, names_all_units, unit_count};
use crate::ranks::{ByElement, ByRules};
use std::alloc::{AllocError, Global};
use std::marker::Model;
use ultra_block_core::{Block, Held};
use ultra_isa::Program;
use ultra_mem::Module;
use ultra_model::{Config, Stop};
use ultra_msg::{Event, Pe};
use ultra_partition::{Merge, are_quiet, holders};
use ultra_route::Net;
use ultra_switch::{Ports, ToMm, ToPe};
use ultra_topology::{UnitSet, element_number, module_number, switch_number};
use ultra_unit_steps::ProcessingElement;

/// The parts of a partitioned machine, for callers that drive the halves of a cycle themselves.
#[derive(Drop)]
pub struct Parts {
    /// The machine's settings.
    pub config: Config,
    /// Its program.
    pub program: Program,
    /// The block of each unit: switches first, then modules, then processing elements.
    pub partition: Vec<u8>,
    /// How many cycles it has made.
    pub done: u32,
    /// The blocks, by their numbers.
    pub blocks: Vec<Block>,
}

impl Parts {
    /// The block of the unit with this number.
    fn block_of(&self, unit: usize) -> &Block
        requires whole { AreParts self.now }
        requires unit { unit < unit_count self.now.config.stages }
        ensures { result.now ≡ block_at self.now.blocks.items (home self.now.partition.items unit) }
    {
        &self.blocks[self.partition[unit] as usize]
    }

    /// The same where there is only one block: it needs no look at the partition. Only the contract
    /// uses `_unit`.
    #[inline(always)]
    fn block_in_one(&self, _unit: usize) -> &Block
        requires whole { AreParts self.now }
        requires one { length self.now.blocks.items ≡ 1 }
        requires unit { _unit < unit_count self.now.config.stages }
        ensures { result.now ≡
            block_at self.now.blocks.items (home self.now.partition.items _unit) }
    {
        &self.blocks[0]
    }
}

/// A whole machine, cut into blocks, between two cycles: its settings, its program, the block of
/// each unit, and the blocks. Switches come first in the partition, then modules, then processing
/// elements.
///
/// Contracts see it as the machine of the definition, the same for every partition.
#[derive(Drop)]
pub struct Blocks {
    parts: Parts,
}

impl Model for Blocks {
    ghost Value = { BlocksState };

    ghost view = { λ b. put_together b.parts };

    ghost invariant = { λ b. AreParts b.parts };
}

#[tactic(auto, using(crate::proofs::Seen::parts_are))]
impl Blocks {
    /// The machine of these settings and this program before its first cycle, with all units in one
    /// block. All registers and cells are 0 except the initial ones, and nothing is on its way.
    ///
    /// It keeps copies of both. An error says that memory was refused.
    pub fn in_one_block(
        alloc: Global,
        config: &Config,
        program: &Program,
    ) -> Result<Blocks, AllocError>
        ensures { IfOk result (λ b. b ≡ record {
          config = config.now;
          program = program.now;
          partition = replicate (unit_count config.now.stages) 0;
          count = 1;
          machine = start config.now;
        }) }
    {
        Ok(Blocks {
            parts: Parts {
                config: config.try_clone()?,
                program: program.try_clone(alloc)?,
                partition: vec![in alloc; 0; unit_count(config)]?,
                done: 0,
                blocks: vec![in alloc; fresh_block(alloc, config, program)?]?,
            },
        })
    }

    /// The machine of these settings and this program before its first cycle, as by `in_one_block`,
    /// but cut by a partition. That names the block of each unit, 0 to 63: switches come first,
    /// then modules, then processing elements. Blocks may be empty; their count is one more than
    /// the greatest number in the partition.
    ///
    /// `BadPartition` says that the partition is not of this length, or that a block is above 63;
    /// it is found before memory is asked for. `NoMemory` says that memory was refused.
    pub fn new(
        alloc: Global,
        config: &Config,
        program: &Program,
        partition: &[u8],
    ) -> Result<Blocks, PartitionFault>
        ensures state { IfOk result (λ b. b ≡ record {
          config = config.now;
          program = program.now;
          partition = partition.now;
          count = b.count;
          machine = start config.now;
        }) }
        ensures count { IfOk result (λ b. IsLastNamed partition.now b.count) }
        ensures accepted { OnOk result (is_partition config.now partition.now ≡ true) }
        ensures refused { IsErrOf result PartitionFault.BadPartition ↔
            (is_partition config.now partition.now ≡ false) }
    {
        if !names_all_units(config, partition) {
            return Err(PartitionFault::BadPartition);
        }
        Blocks::in_one_block(alloc, config, program)?
            .recut(alloc, partition)
            .map_err(|(_, fault)| fault)
    }

    /// The same machine cut by a partition: its units move to other blocks, and nothing else
    /// changes. All of them have to be in one block before. The partition names the block of each
    /// unit as for `new`.
    ///
    /// `BadPartition` says that it is not one; it is found before memory is asked for. `NoMemory`
    /// says that memory was refused. With either the same machine is given back.
    pub fn recut(self, alloc: Global, partition: &[u8]) -> Result<Blocks, (Blocks, PartitionFault)>
        requires { self.count ≡ 1 }
        ensures state { IfOk result (λ b.
            b ≡ record self { partition = partition.now; count = b.count }) }
        ensures count { IfOk result (λ b. IsLastNamed partition.now b.count) }
        ensures accepted { OnOk result (is_partition self.config partition.now ≡ true) }
        ensures refused { IfErr result (λ e. (e.1 ≡ PartitionFault.BadPartition) ↔
            (is_partition self.config partition.now ≡ false)) }
        ensures given_back { IfErr result (λ e. e.0 ≡ self) }
    {
        if !names_all_units(&self.parts.config, partition) {
            return Err((self, PartitionFault::BadPartition));
        }
        let Ok(homes) = Vec::from_slice(alloc, partition) else {
            return Err((self, PartitionFault::NoMemory));
        };
        let count = count_blocks(partition);
        let Ok(mut blocks) = empty_blocks(alloc, &self.parts.blocks[0], count) else {
            return Err((self, PartitionFault::NoMemory));
        };
        let mut parts = self.parts;
        let block = &mut parts.blocks[0];
        // Block 0 gets the events and faults of the cycle.
        blocks[0].swap_events_with(block);
        for unit in 0..partition.len() {
            let home = partition[unit] as usize;
            block.move_unit(unit, &mut blocks[home]);
        }
        parts.partition = homes;
        parts.blocks = blocks;
        Ok(Blocks { parts })
    }

    /// Takes the machine apart, for a cycle that others make.
    pub fn into_parts(self) -> Parts
        ensures value { put_together result ≡ self }
        ensures whole { AreParts result }
    {
        self.parts
    }

    /// Puts the parts of a machine together, which has to be between two cycles.
    pub fn from_parts(parts: Parts) -> Blocks
        requires { AreParts parts }
        ensures { result ≡ put_together parts }
    {
        Blocks { parts }
    }

    /// The machine makes one cycle: replies, memory, requests, processors. It takes no memory and
    /// always succeeds.
    ///
    /// Its count of cycles has to be below `2^32 - 1`.
    #[inline(always)]
    pub fn cycle(&mut self)
        requires { self.old.machine.cycles < 2 ^ 32 - 1 }
        ensures { self.new ≡ record self.old {
          machine = next_cycle self.old.config self.old.program self.old.machine;
        } }
    {
        make_cycle(
            self.parts.blocks.as_mut_slice(),
            &self.parts.config,
            self.parts.partition.as_slice(),
            self.parts.done,
        );
        self.parts.done += 1;
    }

    /// Whether every processing element has halted or faulted, and nothing is on its way or open.
    /// It looks no further than the first unit that isn't at rest.
    #[inline(always)]
    pub fn is_quiet(&self) -> bool
        ensures { result ≡ is_quiet self.now.machine }
    {
        are_quiet(self.parts.blocks.as_slice())
    }

    /// How many cycles the machine has made.
    pub fn done(&self) -> u32
        ensures { result ≡ self.now.machine.cycles }
    {
        self.parts.done
    }

    /// The machine's settings.
    pub fn config(&self) -> &Config
        ensures { result.now ≡ self.now.config }
    {
        &self.parts.config
    }

    /// The machine's program.
    pub fn program(&self) -> &Program
        ensures { result.now ≡ self.now.program }
    {
        &self.parts.program
    }

    /// The block of each unit: switches first, then modules, then processing elements.
    pub fn partition(&self) -> &[u8]
        ensures { result.now ≡ self.now.partition }
    {
        self.parts.partition.as_slice()
    }

    /// The units that hold what is asked for. Switches are numbered first, by stage, then modules,
    /// then processing elements.
    #[inline(always)]
    pub fn holding(&self, held: Held) -> UnitSet
        ensures { IsSetOf (holds self.now.config.stages self.now.machine held) result }
    {
        holders(self.parts.blocks.as_slice(), held)
    }

    /// The units of a machine in one block that hold what is asked for, numbered as by `holding`.
    #[inline(always)]
    pub fn holding_of_one(&self, held: Held) -> &UnitSet
        requires { self.now.count ≡ 1 }
        ensures { IsSetOf (holds self.now.config.stages self.now.machine held) result.now }
    {
        self.parts.blocks[0].holding(held)
    }

    /// What happened in the last cycle, in the order of the rules: deliveries by processing
    /// element, servings by module, combinations by stage, position and arrival, issues by
    /// processing element.
    #[tactic(auto, using(std::proofs::lemmas::Grind::common_steps), unfolding(ultra_cycle_law::specs::Whole::whole, ultra_partition::specs::Events::merged_events))]
    pub fn events(&self) -> Merge<'_, Event, ByRules>
        ensures { events_left result ≡ self.now.machine.events }
    {
        let mut events = Merge::new(ByRules {
            net: self.parts.config.net(),
        });
        for block in &self.parts.blocks {
            events.add(block.events());
        }
        events
    }

    /// The faults of the last cycle, by processing element.
    #[tactic(auto, using(std::proofs::lemmas::Grind::common_steps), unfolding(ultra_cycle_law::specs::Whole::whole, ultra_partition::specs::Events::merged_stops))]
    pub fn stops(&self) -> Merge<'_, Stop, ByElement>
        ensures { stops_left result ≡ self.now.machine.stops }
    {
        let mut stops = Merge::new(ByElement);
        for block in &self.parts.blocks {
            stops.add(block.stops());
        }
        stops
    }

    /// Whether all units are in one block, so that nothing has to be merged.
    pub fn is_in_one_block(&self) -> bool
        ensures { result ≡ (self.now.count == 1) }
    {
        self.parts.blocks.len() == 1
    }

    /// What happened in the last cycle of a machine in one block, in the order of the rules.
    #[tactic(auto, using(crate::proofs::Seen::one_steps), unfolding(ultra_cycle_law::specs::Whole::whole))]
    pub fn events_of_one(&self) -> &[Event]
        requires { self.now.count ≡ 1 }
        ensures { result.now ≡ self.now.machine.events }
    {
        self.parts.blocks[0].events()
    }

    /// The faults of the last cycle of a machine in one block, by processing element.
    #[tactic(auto, using(crate::proofs::Seen::one_steps), unfolding(ultra_cycle_law::specs::Whole::whole))]
    pub fn stops_of_one(&self) -> &[Stop]
        requires { self.now.count ≡ 1 }
        ensures { result.now ≡ self.now.machine.stops }
    {
        self.parts.blocks[0].stops()
    }

    /// The queue toward memory at a memory-side position of a stage, with its wait buffer. Both are
    /// counted from 0: the stage is below the number of stages, the position below that of
    /// processing elements.
    pub fn lane(&self, stage: u32, position: u32) -> &ToMm
        requires stage { stage < self.now.config.stages }
        requires position { position < 2 ^ self.now.config.stages }
        ensures state { result.now.lane ≡ lane_at self.now.machine stage position }
        ensures requests { result.now.request_places ≡ self.now.config.request_places }
        ensures waits { result.now.wait_places ≡ self.now.config.wait_places }
    {
        let number = switch_number(self.parts.config.net(), stage, position / 2);
        let switch = self.parts.block_of(number).switch(number);
        at(&switch.to_mm, position % 2)
    }

    /// The queue toward the processing elements at a PE-side position of a stage. Both are counted
    /// from 0: the stage is below the number of stages, the position below that of processing
    /// elements.
    pub fn reply_queue(&self, stage: u32, position: u32) -> &ToPe
        requires stage { stage < self.now.config.stages }
        requires position { position < 2 ^ self.now.config.stages }
        ensures state { result.now.replies ≡ replies_at self.now.machine stage position }
        ensures places { result.now.places ≡ self.now.config.reply_places }
    {
        let number = switch_number(self.parts.config.net(), stage, position / 2);
        let switch = self.parts.block_of(number).switch(number);
        at(&switch.to_pe, position % 2)
    }

    /// The same as `lane`, in a machine in one block. `net` is its network.
    #[inline(always)]
    pub fn lane_of_one(&self, net: Net, stage: u32, position: u32) -> &ToMm
        requires one { self.now.count ≡ 1 }
        requires net { net ≡ self.now.config.stages }
        requires stage { stage < self.now.config.stages }
        requires position { position < 2 ^ self.now.config.stages }
        ensures state { result.now.lane ≡ lane_at self.now.machine stage position }
        ensures requests { result.now.request_places ≡ self.now.config.request_places }
        ensures waits { result.now.wait_places ≡ self.now.config.wait_places }
    {
        let unit = switch_number(net, stage, position / 2);
        let only = self.parts.block_in_one(unit);
        at(&only.switch(unit).to_mm, position % 2)
    }

    /// The same as `reply_queue`, in a machine in one block. `net` is its network.
    #[inline(always)]
    pub fn reply_queue_of_one(&self, net: Net, stage: u32, position: u32) -> &ToPe
        requires one { self.now.count ≡ 1 }
        requires net { net ≡ self.now.config.stages }
        requires stage { stage < self.now.config.stages }
        requires position { position < 2 ^ self.now.config.stages }
        ensures state { result.now.replies ≡ replies_at self.now.machine stage position }
        ensures places { result.now.places ≡ self.now.config.reply_places }
    {
        let unit = switch_number(net, stage, position / 2);
        let only = self.parts.block_in_one(unit);
        at(&only.switch(unit).to_pe, position % 2)
    }

    /// The same as `element`, in a machine in one block. `net` is its network.
    #[inline(always)]
    pub fn element_of_one(&self, net: Net, pe: Pe) -> &ProcessingElement
        requires one { self.now.count ≡ 1 }
        requires net { net ≡ self.now.config.stages }
        requires pe { pe < 2 ^ self.now.config.stages }
        ensures state { element_of result.now ≡ element_at self.now.machine pe }
        ensures site { result.now.processor.site ≡ site self.now.config pe }
        ensures most_open { result.now.interface.most_open ≡ self.now.config.most_open }
    {
        let unit = element_number(net, pe);
        self.parts.block_in_one(unit).element(pe)
    }

    /// A memory module, by its number from 0. There are as many as processing elements.
    pub fn memory_module(&self, number: u32) -> &Module
        requires number { number < 2 ^ self.now.config.stages }
        ensures state { result.now ≡ module_at self.now.machine number }
        ensures cells { length result.now.cells ≡ self.now.config.cells }
    {
        let unit = module_number(self.parts.config.net(), number);
        self.parts.block_of(unit).module(number)
    }

    /// A processing element, by its number from 0.
    pub fn element(&self, pe: Pe) -> &ProcessingElement
        requires pe { pe < 2 ^ self.now.config.stages }
        ensures state { element_of result.now ≡ element_at self.now.machine pe }
        ensures site { result.now.processor.site ≡ site self.now.config pe }
        ensures most_open { result.now.interface.most_open ≡ self.now.config.most_open }
    {
        let unit = element_number(self.parts.config.net(), pe);
        self.parts.block_of(unit).element(pe)
    }
}

/// What there is at a port, by its number.
fn at<T>(ports: &Ports<T>, port: u32) -> &T
    ensures { result.now ≡ at_port ports.now port }
{
    if port == 0 { &ports.zero } else { &ports.one }
}
