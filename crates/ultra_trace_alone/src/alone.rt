//! A machine runs and text of its run is written.

ghost use Rattle.std.specs.Prelude.{◌≡◌, ◌+◌, ◌≤◌, ◌++◌, ◌||◌, false, OnOk, OnErr};
ghost use Rattle.ultra_msg.specs.Bytes.{TakesPrefix};
ghost use Rattle.ultra_model.specs.{Machine.is_quiet, Trace.by_number, declared.config.TheConstants.MOST_CYCLES};
ghost use Rattle.ultra_io.specs.TextBuffer.{Writes, has_failed};
ghost use Rattle.ultra_trace_alone.specs.{BlocksAfter.IsAfter, RunText.{cycles_for, most_for, run_text}};

use crate::text::RunText;
use ultra_block::Blocks;
use ultra_io::TextBuffer;
use ultra_msg::{Sink, SinkFault};

/// Runs a machine from its start, and writes text of its run to a sink. After a fault the sink has
/// taken a prefix of it.
pub(crate) fn write_text<T: RunText, S: Sink>(
    blocks: &mut Blocks,
    text: &mut T,
    sink: &mut S,
) -> Result<(), SinkFault>
    requires takes { T.takes blocks.old.count }
    requires start { IsAfter blocks.old.config blocks.old.program 0 blocks.old }
    requires ready { T.is_ready text.old blocks.old.config blocks.old.program 0 }
    ensures ok { OnOk result (S.taken sink.new ≡ S.taken sink.old ++
        run_text (T.pieces text.old) blocks.old.config blocks.old.program) }
    ensures still { OnOk result (S.failures sink.new ≡ S.failures sink.old) }
    ensures err { OnErr result
        (TakesPrefix (run_text (T.pieces text.old) blocks.old.config blocks.old.program)
        (S.taken sink.old) (S.taken sink.new)) }
    ensures counted { OnErr result (S.failures sink.new ≡ S.failures sink.old + 1) }
{
    let mut buffer = TextBuffer::new(sink);
    put_text(&mut buffer, blocks, text);
    buffer.finish()
}

/// Runs a machine from its start, and writes text of its run. It ends early where the sink fails.
fn put_text<T: RunText, S: Sink>(buffer: &mut TextBuffer<'_, S>, blocks: &mut Blocks, text: &mut T)
    requires takes { T.takes blocks.old.count }
    requires start { IsAfter blocks.old.config blocks.old.program 0 blocks.old }
    requires ready { T.is_ready text.old blocks.old.config blocks.old.program 0 }
    ensures { Writes S.taken S.failures
        (run_text (T.pieces text.old) blocks.old.config blocks.old.program)
        buffer.old buffer.new }
{
    text.put_opening(buffer);
    put_cycles(buffer, blocks, text);
    if buffer.has_failed() {
        return;
    }
    text.put_closing(buffer, blocks);
}

/// Runs a machine from its start to the end of its trace, or to the last cycle that the text needs,
/// and writes the lines of these cycles. It ends early where the sink fails.
fn put_cycles<T: RunText, S: Sink>(
    buffer: &mut TextBuffer<'_, S>,
    blocks: &mut Blocks,
    text: &mut T,
)
    requires takes { T.takes blocks.old.count }
    requires start { IsAfter blocks.old.config blocks.old.program 0 blocks.old }
    requires ready { T.is_ready text.old blocks.old.config blocks.old.program 0 }
    ensures writes { Writes S.taken S.failures
        (by_number (cycles_for blocks.old.config blocks.old.program (T.pieces text.old).last)
        ((T.pieces text.old).lines blocks.old.config blocks.old.program)) buffer.old buffer.new }
    ensures takes { T.takes blocks.new.count }
    ensures same { T.pieces text.new ≡ T.pieces text.old }
    ensures end { has_failed buffer.new ≡ false → IsAfter blocks.old.config blocks.old.program
        (cycles_for blocks.old.config blocks.old.program (T.pieces text.old).last) blocks.new }
    ensures ready { has_failed buffer.new ≡ false → T.is_ready text.new blocks.old.config
        blocks.old.program
        (cycles_for blocks.old.config blocks.old.program (T.pieces text.old).last) }
{
    for cycle in 0..most_cycles(blocks, text.last_cycle()) {
        blocks.cycle();
        text.put_lines(buffer, blocks, cycle);
        if is_over(buffer, blocks) {
            return;
        }
    }
}

/// Whether a run ends with the last cycle, before the settings' limit: where the machine is quiet,
/// or the sink has failed.
#[inline(always)]
pub fn is_over<S: Sink>(buffer: &TextBuffer<'_, S>, blocks: &Blocks) -> bool
    ensures { result ≡ (is_quiet blocks.now.machine || has_failed buffer.now) }
{
    blocks.is_quiet() || buffer.has_failed()
}

/// How many cycles are made where the machine isn't quiet before: as many as the settings allow,
/// but none behind the last one that is needed.
pub fn most_cycles(blocks: &Blocks, last: Option<u32>) -> u32
    ensures value { result ≡ most_for blocks.now.config last }
    ensures small { result ≤ MOST_CYCLES }
{
    let allowed = blocks.config().cycles();
    match last {
        Some(last) if last < allowed => last + 1,
        _ => allowed,
    }
}
