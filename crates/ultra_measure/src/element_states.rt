//! The processing elements as they were last looked at. One that would stall, or has stopped, is
//! left as it is until a reply comes to it, so it isn't looked at before.

ghost use Rattle.std.specs.Prelude.{◌≡◌, ◌≢◌, ℕ, List, ◌+◌, ◌*◌, ◌^◌, ◌<◌, ◌≤◌};
ghost use Rattle.ultra_isa.specs.declared.Instr.{Instr as InstrOf};
ghost use Rattle.ultra_model.specs.{Machine.{Settings, Machine, size}, Phases.after};
ghost use Rattle.ultra_topology.specs.Set.{has_bit};
ghost use Rattle.ultra_measure.specs.{Held.{running, stalled, opened}, Kept.IsAfterCycle};
ghost use Rattle.ultra_measure.specs.ElementStates.{AreAnswered, AreBelow, AreKnown, AreKnownBut, AreSeen, IsKnown, IsSameAt, three_in_one};

use crate::pe_set::PeSet;
use crate::tally::Tally;
use ultra_block::Blocks;
use ultra_route::Net;

/// What one processing element is doing.
#[derive(Clone, Copy, Drop)]
struct ElementNow {
    /// 1 if it has neither halted nor faulted.
    running: u32,
    /// 1 if its next step would stall.
    stalled: u32,
    /// How many cells it has open.
    opened: u32,
}

/// The processing elements as they were last looked at.
#[derive(Drop)]
pub(crate) struct ElementStates {
    /// What each was doing: three numbers in one, so that one sum has the sums of all three.
    pub(crate) tally: Tally,
    /// At least those that the next cycle may change without a reply to them.
    pub(crate) awake: PeSet,
}

impl ElementStates {
    /// None was looked at yet.
    pub(crate) fn new(net: Net) -> ElementStates
        ensures { (c : Settings) (program : List InstrOf) (m : Machine) → c.stages ≡ net →
            AreSeen c program m result }
    {
        ElementStates {
            tally: Tally::new(),
            awake: PeSet::below(net.size()),
        }
    }

    /// Looks again at those that a cycle may have changed: they were awake before, or a reply came
    /// to them. `answered` are the latter.
    #[inline(always)]
    pub(crate) fn note_cycle(&mut self, blocks: &Blocks, net: Net, cycle: u32, answered: PeSet)
        requires one { blocks.now.count ≡ 1 }
        requires net { net ≡ blocks.now.config.stages }
        requires run { IsAfterCycle cycle blocks.now }
        requires answered { AreAnswered (size blocks.now.config) blocks.now.machine.events
            answered }
        requires states { AreSeen blocks.now.config blocks.now.program
            (after blocks.now.config blocks.now.program cycle) self.old }
        ensures { AreKnown blocks.now.config blocks.now.program blocks.now.machine self.new }
    {
        // for the prover: the settings are in their ranges
        let _valid = blocks.config().initial();
        let due = self.awake.union(answered);
        self.look_at_all(blocks, net, due);
    }

    /// Looks at some of the elements of a machine; all others are known.
    #[inline(always)]
    fn look_at_all(&mut self, blocks: &Blocks, net: Net, due: PeSet)
        requires one { blocks.now.count ≡ 1 }
        requires net { net ≡ blocks.now.config.stages }
        requires within { AreBelow (size blocks.now.config) due }
        requires others { AreKnownBut blocks.now.config blocks.now.program blocks.now.machine
            (λ p. has_bit due p) self.old }
        ensures { AreKnown blocks.now.config blocks.now.program blocks.now.machine self.new }
    {
        let mut left = due;
        'due: while let Some(pe) = left.take_first() {
            self.look_at(blocks, net, pe);
        }
    }

    /// Finds out what a processing element is doing.
    #[inline(always)]
    fn look_at(&mut self, blocks: &Blocks, net: Net, pe: u32)
        requires one { blocks.now.count ≡ 1 }
        requires net { net ≡ blocks.now.config.stages }
        requires pe { pe < 2 ^ blocks.now.config.stages }
        ensures known { IsKnown blocks.now.config blocks.now.program blocks.now.machine self.new
            pe }
        ensures others { (p : ℕ) → p ≢ pe → IsSameAt self.old self.new p }
    {
        // for the prover: there are at most 64
        let _size = net.size();
        let now = element_now(blocks, net, pe);
        self.tally.set(pe, now.number());
        self.awake.remove(pe);
        // one that runs and wouldn't stall makes a step
        if now.running != now.stalled {
            self.awake.insert(pe);
        }
    }
}

impl ElementNow {
    /// The three numbers in one.
    #[inline(always)]
    fn number(&self) -> u32
        requires { (self.now.running ≤ 1) × (self.now.stalled ≤ 1) × (self.now.opened ≤ 8) }
        ensures value { result ≡ three_in_one self.now.running self.now.stalled self.now.opened }
        ensures small { result ≤ 2 ^ 20 }
    {
        self.running + self.stalled * 0x100 + self.opened * 0x1_0000
    }
}

/// What one processing element is doing.
#[inline(always)]
fn element_now(blocks: &Blocks, net: Net, pe: u32) -> ElementNow
    requires one { blocks.now.count ≡ 1 }
    requires net { net ≡ blocks.now.config.stages }
    requires pe { pe < 2 ^ blocks.now.config.stages }
    ensures running { result.running ≡ running blocks.now.machine pe }
    ensures stalled { result.stalled ≡
        stalled blocks.now.config blocks.now.program blocks.now.machine pe }
    ensures opened { result.opened ≡ opened blocks.now.machine pe }
    ensures few { (result.running ≤ 1) × (result.stalled ≤ 1) × (result.opened ≤ 8) }
{
    let element = blocks.element_of_one(net, pe);
    ElementNow {
        running: u32::from(!element.processor.has_stopped()),
        stalled: u32::from(
            element
                .processor
                .would_stall(blocks.program(), &element.interface),
        ),
        opened: element.interface.open_count() as u32,
    }
}
