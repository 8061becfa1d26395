//! One step of a processing element whose requests act at once.

ghost use Rattle.std.specs.Prelude.{◌≡◌, ◌≤◌, length};
ghost use Rattle.ultra_para.specs.{Para.{alone_at, cells_acted, core_answered}, Report.{fault_in, report_with}};

use ultra_isa::{MachineFault, Processor, Program, Step};
use ultra_msg::{Reply, ReplyMessage, Request, Word};
use ultra_pni::Pni;

/// What a step of a processing element did that the others can see, or how it stopped.
#[derive(Clone, Copy, PartialEq, Eq, Debug, Drop)]
pub enum StepReport {
    /// It did neither of the following.
    Nothing,
    /// Its request acted on a cell, and got this reply.
    Acted(Request, Reply),
    /// It faulted.
    Faulted(MachineFault),
}

/// Does one step of a processing element. A request that it issues acts on these cells, and its
/// reply comes, before the step ends.
pub fn step_at_once(processor: &mut Processor, program: &Program, cells: &mut [Word]) -> StepReport
    requires { processor.old.site.all_cells ≤ length cells.old }
    ensures processor { let t = alone_at processor.old.site program.now processor.old.core in
        processor.new ≡ record processor.old { core = core_answered cells.old t t.sent } }
    ensures cells { cells.new ≡
        cells_acted cells.old (alone_at processor.old.site program.now processor.old.core).sent }
    ensures report { let t = alone_at processor.old.site program.now processor.old.core in
        result ≡ report_with cells.old t t.sent }
{
    let mut interface = Pni::new(1);
    let step = processor.step(program, &mut interface);
    let Some(request) = interface.leave() else {
        return fault_of(step);
    };
    let cell = request.cell as usize;
    let (word, reply) = request.op.act(cells[cell]);
    cells[cell] = word;
    let message = ReplyMessage {
        pe: request.pe,
        cell: request.cell,
        reply,
    };
    let target = interface.deliver(message);
    if let Some(register) = target {
        if let Reply::Value(value) = reply {
            processor.receive(register, value);
        }
    }
    StepReport::Acted(request, reply)
}

/// The report of a step that issued no request.
fn fault_of(step: Step) -> StepReport
    ensures { result ≡ fault_in step }
{
    match step {
        Step::Fault(fault) => StepReport::Faulted(fault),
        _ => StepReport::Nothing,
    }
}
