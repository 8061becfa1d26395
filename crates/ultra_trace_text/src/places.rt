//! The lines of what waits in a machine: in interfaces, queues, wait buffers and the registers of
//! modules. What is empty has no line.

ghost use Rattle.ultra_model.specs.Trace.{pni_line, req_line, wait_line, inp_line, out_line, rep_line};
ghost use Rattle.ultra_io.specs.TextBuffer.{Writes};

use crate::entries::{Records, put_entries};
use crate::texts::{begin_place, begin_unit, end_line, write_message, write_request};
use ultra_io::TextBuffer;
use ultra_mem::Module;
use ultra_msg::Sink;
use ultra_pni::Pni;
use ultra_switch::{ToMm, ToPe};

/// Writes the line of a processing element's requests that are not yet in the network, as `pni 0:
/// 0@5 faa 1`.
pub(crate) fn put_pni<S: Sink>(buffer: &mut TextBuffer<'_, S>, pe: u32, interface: &Pni)
    ensures { Writes S.taken S.failures
        (pni_line pe interface.now.interface.pending) buffer.old buffer.new }
{
    if interface.pending_count() > 0 {
        let at = begin_unit(buffer, b"pni ", pe);
        put_entries(buffer, at, interface);
    }
}

/// Writes the line of a queue toward memory, at a memory-side position of a stage, as `req 0 1: 1@0
/// faa 2 *`.
pub(crate) fn put_req<S: Sink>(
    buffer: &mut TextBuffer<'_, S>,
    stage: u32,
    position: u32,
    queue: &ToMm,
)
    ensures { Writes S.taken S.failures
        (req_line stage position queue.now.lane.queue) buffer.old buffer.new }
{
    if !queue.is_empty() {
        let at = begin_place(buffer, b"req ", stage, position);
        put_entries(buffer, at, queue);
    }
}

/// Writes the line of a wait buffer, at a memory-side position of a stage, as `wait 0 1: 1@0 same 0
/// plus 1`.
pub(crate) fn put_wait<S: Sink>(
    buffer: &mut TextBuffer<'_, S>,
    stage: u32,
    position: u32,
    queue: &ToMm,
)
    ensures { Writes S.taken S.failures
        (wait_line stage position queue.now.lane.records) buffer.old buffer.new }
{
    if queue.record_count() > 0 {
        let at = begin_place(buffer, b"wait ", stage, position);
        put_entries(buffer, at, &Records(queue));
    }
}

/// Writes the line of the request that waits for a module, such as `inp 0: 1@0 faa 2`.
pub(crate) fn put_inp<S: Sink>(buffer: &mut TextBuffer<'_, S>, module: u32, memory_module: &Module)
    ensures { Writes S.taken S.failures
        (inp_line «module» memory_module.now.inp) buffer.old buffer.new }
{
    if let Some(request) = memory_module.request() {
        let at = begin_unit(buffer, b"inp ", module);
        let at = write_request(buffer, at, request);
        end_line(buffer, at);
    }
}

/// Writes the line of the reply that waits to leave a module, such as `out 0: 1@0 = 0`.
pub(crate) fn put_out<S: Sink>(buffer: &mut TextBuffer<'_, S>, module: u32, memory_module: &Module)
    ensures { Writes S.taken S.failures
        (out_line «module» memory_module.now.out) buffer.old buffer.new }
{
    if let Some(message) = memory_module.reply() {
        let at = begin_unit(buffer, b"out ", module);
        let at = write_message(buffer, at, message);
        end_line(buffer, at);
    }
}

/// Writes the line of a queue toward the processing elements, at a PE-side position of a stage, as
/// `rep 0 1: 1@0 = 0`.
pub(crate) fn put_rep<S: Sink>(
    buffer: &mut TextBuffer<'_, S>,
    stage: u32,
    position: u32,
    queue: &ToPe,
)
    ensures { Writes S.taken S.failures
        (rep_line stage position queue.now.replies) buffer.old buffer.new }
{
    if !queue.is_empty() {
        let at = begin_place(buffer, b"rep ", stage, position);
        put_entries(buffer, at, queue);
    }
}
