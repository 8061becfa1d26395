//! Processing elements, and what the halves of a cycle do to one.

ghost use Rattle.std.specs.Prelude.{◌≡◌, ◌+◌, ◌-◌, ◌^◌, ◌<◌, ◌↔◌, Some, IsTrue, length, slice_get};
ghost use Rattle.ultra_unit_steps.specs.Prelude.{CanDeliver, has_stopped, issue_event, stop_of};

use ultra_isa::{Processor, Program, Step};
use ultra_model::Stop;
use ultra_msg::{Event, Pe, Reply, ReplyMessage, RequestPacket};
use ultra_pni::Pni;

/// A processing element: its processor, its network interface, and how many requests it has issued.
#[derive(Drop)]
pub struct ProcessingElement {
    /// Its registers, and where it is in the program.
    pub processor: Processor,
    /// Its open cells, and its requests that aren't in the network yet.
    pub interface: Pni,
    /// How many requests it has issued, which is the number of the next.
    pub issued: u32,
}

/// What came of one step of a processing element.
#[derive(Clone, Copy, Drop)]
pub enum StepOutcome {
    /// It did an instruction that needs no memory.
    Done,
    /// It issued a request; this is the event.
    Issued(Event),
    /// It faulted.
    Faulted(Stop),
    /// Nothing has changed, and nothing will until a reply is delivered: it has to wait for one, or
    /// it had stopped before.
    AtRest,
}

impl ProcessingElement {
    ghost use Rattle.ultra_unit_steps.specs.Elements.{delivered_to, element_of, element_without, executed, holds_request, is_at_rest, issue_in, quiet_element, step_at, stop_in};

    /// A reply is delivered: its register is set, if it has one, and its cell is no longer open.
    /// The cell has to be open, and its request has to have left the list.
    pub fn deliver(&mut self, reply: ReplyMessage)
        requires { CanDeliver reply.cell self.old.interface.interface }
        ensures { self.new ≡ delivered_to self.old (Some reply) }
    {
        if let Some(register) = self.interface.deliver(reply)
            && let Reply::Value(word) = reply.reply
        {
            self.processor.receive(register, word);
        }
    }

    /// The request that leaves next, or `None` if none waits.
    #[inline(always)]
    pub fn request_head(&self) -> Option<RequestPacket>
        ensures { result ≡ slice_get self.now.interface.interface.pending 0 }
    {
        self.interface.head_packet()
    }

    /// The first request that waits leaves; its cell stays open. `None` says that none waited.
    pub fn send_request(&mut self) -> Option<RequestPacket>
        ensures sent { result ≡ slice_get self.old.interface.interface.pending 0 }
        ensures left { self.new ≡ element_without self.old result }
    {
        self.interface.leave_packet()
    }

    /// One step of the program. `pe` is the number of the processing element.
    #[inline(always)]
    #[tactic(auto, unfolding(crate::specs::Elements::changes_nothing))]
    pub fn execute(&mut self, program: &Program, pe: Pe) -> StepOutcome
        requires { self.old.issued < 2 ^ 32 - 1 }
        ensures element { self.new ≡ executed program.now self.old }
        ensures issue { issue_in result ≡
            issue_event (element_of self.old) (step_at program.now self.old).sent }
        ensures stop { stop_in result ≡ stop_of pe (step_at program.now self.old).was }
        ensures rest { (result ≡ StepOutcome.AtRest) ↔ IsTrue (is_at_rest program.now self.old) }
        ensures same { result ≡ StepOutcome.AtRest → self.new ≡ self.old }
    {
        match self.processor.step(program, &mut self.interface) {
            Step::Issued => {
                let number = self.issued;
                self.issued += 1;
                StepOutcome::Issued(Event::Issued {
                    request: self.interface.newest().unwrap(),
                    number,
                })
            }
            Step::Fault(fault) => StepOutcome::Faulted(Stop { pe, fault }),
            Step::Done => StepOutcome::Done,
            Step::Stalled | Step::Halted => StepOutcome::AtRest,
        }
    }

    /// Whether a request waits to leave.
    #[inline(always)]
    pub fn holds_request(&self) -> bool
        ensures { result ≡ holds_request self.now }
    {
        self.interface.pending_count() != 0
    }

    /// Whether it has halted or faulted.
    #[inline(always)]
    pub fn has_stopped(&self) -> bool
        ensures { result ≡ has_stopped self.now.processor.core.activity }
    {
        self.processor.has_stopped()
    }

    /// Whether it has halted or faulted, no cell is open, and no request waits.
    pub fn is_quiet(&self) -> bool
        ensures { result ≡ quiet_element self.now }
    {
        self.processor.has_stopped() && self.interface.is_idle()
    }
}
