//! The command `order`: it writes the serial order of a run.

ghost use Rattle.std.specs.Prelude.{◌≡◌, ◌+◌, ◌++◌, false, IfErr, OnErr, OnOk};
ghost use Rattle.ultra_msg.specs.Bytes.{TakesPrefix};
ghost use Rattle.ultra_io.specs.TextBuffer.{Writes, WritesPrefix, has_failed};
ghost use Rattle.ultra_serial.specs.OrderedRunState.{whole_list};
ghost use Rattle.ultra_inputs.specs.{Failure.write_failures, Traffic.IsStopped};
ghost use Rattle.ultra_commands.specs.Order.{order_of, order_text};

use crate::run_output::RunOutput;
use std::alloc::{AllocError, Global};
use ultra_inputs::Failure;
use ultra_io::TextBuffer;
use ultra_isa::Program;
use ultra_list::put_entries;
use ultra_model::Config;
use ultra_msg::Sink;
use ultra_serial::OrderedRun;

/// The serial order of a run, a line for each request that was served.
pub(crate) struct SerialOrder;

impl RunOutput for SerialOrder {
    ghost text = { λ _. order_of };

    fn write<'p, S: Sink>(
        &self,
        alloc: Global,
        config: &Config,
        program: &Program,
        sink: &mut S,
    ) -> Result<(), Failure<'p>> {
        order_run(alloc, config, program, sink)
    }
}

/// Writes the lines of the serial order of a run, as the run goes: what is held doesn't grow with
/// it.
fn order_run<'p, O: Sink>(
    alloc: Global,
    config: &Config,
    program: &Program,
    out: &mut O,
) -> Result<(), Failure<'p>>
    ensures ok { OnOk result
        (O.taken out.new ≡ O.taken out.old ++ order_of config.now program.now) }
    ensures err { OnErr result
        (TakesPrefix (order_of config.now program.now) (O.taken out.old) (O.taken out.new)) }
    ensures stopped { IfErr result IsStopped }
    ensures still { OnOk result (O.failures out.new ≡ O.failures out.old) }
    ensures counted { IfErr result
        (λ f. O.failures out.new ≡ O.failures out.old + write_failures f) }
{
    let mut run = OrderedRun::new(alloc, config, program, config.cycles())?;
    write_order(&mut run, out)
}

/// Makes a run from its start to its end, and writes the lines of its serial order.
fn write_order<'p, O: Sink>(run: &mut OrderedRun, out: &mut O) -> Result<(), Failure<'p>>
    requires { run.old.cycles ≡ 0 }
    ensures ok { OnOk result
        (O.taken out.new ≡ O.taken out.old ++ order_text (whole_list run.old)) }
    ensures err { OnErr result
        (TakesPrefix (order_text (whole_list run.old)) (O.taken out.old) (O.taken out.new)) }
    ensures stopped { IfErr result IsStopped }
    ensures still { OnOk result (O.failures out.new ≡ O.failures out.old) }
    ensures counted { IfErr result
        (λ f. O.failures out.new ≡ O.failures out.old + write_failures f) }
{
    let mut buffer = TextBuffer::new(out);
    put_order(&mut buffer, run)?;
    match buffer.finish() {
        Ok(()) => Ok(()),
        Err(_) => Err(Failure::NotWritten),
    }
}

/// Makes a run from its start to its end, and puts the lines of its serial order in a buffer. It
/// ends early where the sink of the buffer fails. An error says that memory was refused.
fn put_order<O: Sink>(
    buffer: &mut TextBuffer<'_, O>,
    run: &mut OrderedRun,
) -> Result<(), AllocError>
    requires start { run.old.cycles ≡ 0 }
    requires sound { has_failed buffer.old ≡ false }
    ensures ok { OnOk result
        (Writes O.taken O.failures (order_text (whole_list run.old)) buffer.old buffer.new) }
    ensures err { OnErr result
        (WritesPrefix O.taken O.failures (order_text (whole_list run.old)) buffer.old buffer.new) }
    ensures sound { OnErr result (has_failed buffer.new ≡ false) }
{
    while !buffer.has_failed() && run.advance()? {
        put_entries(buffer, run.entries());
    }
    Ok(())
}
