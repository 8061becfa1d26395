//! Copies of the processing elements, which make the same steps.

ghost use Rattle.std.specs.Prelude.{◌≡◌, ℕ, ◌-◌, ◌^◌, ◌<◌, [], Some, IfOk, slice_get, vec_capacity};
ghost use Rattle.ultra_model.specs.Machine.{fresh_element, size};
ghost use Rattle.ultra_pni.specs.Interface.{CanDeliver};
ghost use Rattle.ultra_unit_steps.specs.Elements.{delivered_to, element_of, step_at};
ghost use Rattle.ultra_steps.specs.{Copies.{AreCopies, stepped_copy}, RegisterSettings.set_by_delivery};

use crate::setting::Setting;
use std::alloc::{AllocError, Global};
use ultra_isa::{Processor, Program, Step};
use ultra_model::Config;
use ultra_msg::{Reply, ReplyMessage};
use ultra_pni::Pni;
use ultra_unit_steps::ProcessingElement;

/// A copy of each processing element before the first cycle, by number. It takes memory for these,
/// and for no more. An error says that memory was refused.
pub(crate) fn fresh_copies(
    alloc: Global,
    config: &Config,
) -> Result<Vec<ProcessingElement>, AllocError>
    ensures copies { IfOk result (λ v. AreCopies config.now (λ p. fresh_element) v.items) }
    ensures capacity { IfOk result (λ v. vec_capacity v ≡ size config.now) }
{
    // for the prover: the settings are in their ranges
    let _valid = config.initial();
    let net = config.net();
    let mut copies = Vec::with_capacity(alloc, net.size() as usize)?;
    for pe in 0..net.size() {
        copies.push_reserved(ProcessingElement {
            processor: Processor::new(pe, net, config.cells()),
            interface: Pni::new(config.most_open() as usize),
            issued: 0,
        });
    }
    Ok(copies)
}

/// A reply is delivered to a copy. Gives what it sets, or `None` if it sets no register.
pub(crate) fn deliver(copy: &mut ProcessingElement, reply: ReplyMessage) -> Option<Setting>
    requires { CanDeliver reply.cell copy.old.interface.interface }
    ensures set { result ≡ set_by_delivery (element_of copy.old) (Some reply) }
    ensures copy { copy.new ≡ delivered_to copy.old (Some reply) }
{
    let register = copy.interface.deliver(reply)?;
    let Reply::Value(value) = reply.reply else {
        return None;
    };
    copy.processor.receive(register, value);
    Some(Setting { register, value })
}

/// A copy makes one step of the program. It keeps no request that it issues.
pub(crate) fn make_step(copy: &mut ProcessingElement, program: &Program) -> Step
    requires none { copy.old.interface.interface.pending ≡ [] }
    requires few { copy.old.issued < 2 ^ 32 - 1 }
    ensures was { result ≡ (step_at program.now copy.old).was }
    ensures copy { copy.new ≡ stepped_copy program.now copy.old }
{
    let was = copy.processor.step(program, &mut copy.interface);
    if let Step::Issued = was {
        copy.interface.leave_packet();
        copy.issued += 1;
    }
    was
}
