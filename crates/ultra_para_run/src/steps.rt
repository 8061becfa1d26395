//! The steps of a paracomputer, and their lines.

ghost use Rattle.std.specs.Prelude.{◌≡◌, ℕ, ◌+◌, ◌-◌, ◌<◌, ◌≤◌, ◌^◌, ◌++◌, ◌∷◌, List, [], IfOk, slice_index};
ghost use Rattle.ultra_io.specs.TextBuffer.{Writes};
ghost use Rattle.ultra_list.specs.SerialText.{order_line};
ghost use Rattle.ultra_isa.specs.declared.Instr.{Instr};
ghost use Rattle.ultra_model.specs.{Machine.{Settings, size}, Text.fault_text, Trace.fault_line};
ghost use Rattle.ultra_para_run.specs.{ParaText.{act_count, next_line, step_line, unless_only_end}, Steps.HasMade};

use std::alloc::{AllocError, Global};
use ultra_io::TextBuffer;
use ultra_isa::{MachineFault, Program};
use ultra_list::{put_operation, put_reply};
use ultra_model::Config;
use ultra_msg::{Pe, Reply, Request, Sink};
use ultra_para::{Para, StepReport};

/// The most processing elements.
const MOST_ELEMENTS: usize = 64;

/// A paracomputer in the course of its steps, with the number of acts of each processing element.
#[derive(Drop)]
pub(crate) struct ParaRun {
    pub(crate) para: Para,
    pub(crate) acts: [usize; MOST_ELEMENTS],
}

/// A paracomputer before its first step. An error says that memory was refused.
pub(crate) fn new_run(
    alloc: Global,
    config: &Config,
    program: &Program,
) -> Result<ParaRun, AllocError>
    ensures { IfOk result (HasMade config.now program.now []) }
{
    // for the prover: there are at most `MOST_ELEMENTS` processing elements
    let _size = config.net().size();
    Ok(ParaRun {
        para: Para::new(alloc, config, program)?,
        acts: [0; MOST_ELEMENTS],
    })
}

/// Makes a step of a processing element, and writes its line, unless only the end is asked for.
pub(crate) fn put_step<S: Sink>(
    buffer: &mut TextBuffer<'_, S>,
    run: &mut ParaRun,
    pe: Pe,
    only_end: bool,
)
    requires there { pe < size run.old.para.settings }
    requires few { pe < 64 }
    requires room { slice_index run.old.acts pe < 2 ^ 64 - 1 }
    ensures writes { (c : Settings) (program : List Instr) (ps : List ℕ) → HasMade c program ps
        run.old → Writes S.taken S.failures (unless_only_end only_end (next_line c program ps pe))
        buffer.old buffer.new }
    ensures made { (c : Settings) (program : List Instr) (ps : List ℕ) → HasMade c program ps
        run.old → HasMade c program (ps ++ pe ∷ []) run.new }
{
    let report = run.para.observed_step(pe);
    let number = run.acts[pe as usize];
    run.acts[pe as usize] = number + act_count(report);
    if !only_end {
        put_report(buffer, pe, number, report);
    }
}

/// How many acts on memory a step is.
fn act_count(report: StepReport) -> usize
    ensures value { result ≡ act_count report }
    ensures few { result ≤ 1 }
{
    match report {
        StepReport::Acted(_, _) => 1,
        StepReport::Nothing | StepReport::Faulted(_) => 0,
    }
}

/// Writes the line of a step of a processing element, which has acted `number` times before.
fn put_report<S: Sink>(buffer: &mut TextBuffer<'_, S>, pe: Pe, number: usize, report: StepReport)
    ensures { Writes S.taken S.failures (step_line pe number report) buffer.old buffer.new }
{
    match report {
        StepReport::Nothing => {}
        StepReport::Acted(request, reply) => put_act(buffer, pe, number, request, reply),
        StepReport::Faulted(fault) => put_fault(buffer, pe, fault),
    }
}

/// Writes the line of an act on memory, as `0.0 faa 0 1 = 1`.
fn put_act<S: Sink>(
    buffer: &mut TextBuffer<'_, S>,
    pe: Pe,
    number: usize,
    request: Request,
    reply: Reply,
)
    ensures { Writes S.taken S.failures (order_line (record {
      pe = pe;
      number = number;
      cell = request.cell;
      op = request.op;
      reply = reply;
    })) buffer.old buffer.new }
{
    buffer.put_number(pe);
    buffer.put(b".");
    buffer.put_count(number);
    buffer.put(b" ");
    put_operation(buffer, request.op, request.cell);
    buffer.put(b" = ");
    put_reply(buffer, reply);
    buffer.put(b"\n");
}

/// Writes the line of a fault, such as `fault 1 f2`.
fn put_fault<S: Sink>(buffer: &mut TextBuffer<'_, S>, pe: Pe, fault: MachineFault)
    ensures { Writes S.taken S.failures
        (fault_line (record { pe = pe; fault = fault })) buffer.old buffer.new }
{
    buffer.put(b"fault ");
    buffer.put_number(pe);
    buffer.put(b" ");
    put_fault_name(buffer, fault);
    buffer.put(b"\n");
}

/// Writes the name of a fault, `f1` or `f2`.
fn put_fault_name<S: Sink>(buffer: &mut TextBuffer<'_, S>, fault: MachineFault)
    ensures { Writes S.taken S.failures (fault_text fault) buffer.old buffer.new }
{
    match fault {
        MachineFault::AddressOutOfRange => buffer.put(b"f1"),
        MachineFault::PastEnd => buffer.put(b"f2"),
    }
}
