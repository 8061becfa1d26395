//! When the requests of a run were issued and answered.

ghost use Rattle.std.specs.Prelude.{◌≡◌, ℕ, ◌∷◌, ◌++◌, ◌≤◌, List, IfOk, OnOk};
ghost use Rattle.ultra_model.specs.{Machine.start, declared.config.TheConstants.MOST_CYCLES};
ghost use Rattle.ultra_serial_law.specs.{Log.{Log as LogKept, empty_log, log_of, logged}, SerialList.history};
ghost use Rattle.ultra_serial.specs.{LogRecorder.{Records, logged_all}, HasRun.HasRun};

use crate::latest_numbers::LatestNumbers;
use crate::serial_state::OrderFault;
use crate::{Log, LoggedAnswer, LoggedIssue};
use std::alloc::{AllocError, Global};
use ultra_isa::Program;
use ultra_machine::{Config, Machine};
use ultra_msg::Event;

/// What was issued and answered so far.
#[derive(Drop)]
pub(crate) struct LogRecorder {
    log: Log,
    /// The number of the latest issue of each processing element for each cell.
    numbers: LatestNumbers,
}

impl LogRecorder {
    /// Before the first cycle.
    fn new(alloc: Global, config: &Config) -> Result<LogRecorder, AllocError>
        ensures { IfOk result (λ recorder. Records recorder empty_log) }
    {
        Ok(LogRecorder {
            log: Log {
                issues: Vec::new(alloc),
                answers: Vec::new(alloc),
            },
            numbers: LatestNumbers::new(alloc, config)?,
        })
    }

    /// What happened in a cycle.
    fn note_all(&mut self, cycle: u32, events: &[Event]) -> Result<(), AllocError>
        ensures { OnOk result ((l : LogKept) → Records self.old l →
            Records self.new (logged_all cycle events.now l)) }
    {
        for event in events {
            self.note(cycle, event)?;
        }
        Ok(())
    }

    /// An event of a cycle.
    fn note(&mut self, cycle: u32, event: &Event) -> Result<(), AllocError>
        ensures { OnOk result ((l : LogKept) → Records self.old l →
            Records self.new (logged cycle l event.now)) }
    {
        match *event {
            Event::Delivered(message) => {
                self.log.answers.push(LoggedAnswer {
                    pe: message.pe,
                    number: self.numbers.get(message.pe, message.cell),
                    reply: message.reply,
                    cycle,
                })?;
            }
            Event::Served { .. } => {}
            Event::Combined { .. } => {}
            Event::Issued { request, number } => {
                self.numbers.set(request.pe, request.cell, number)?;
                self.log.issues.push(LoggedIssue {
                    pe: request.pe,
                    number,
                    cell: request.cell,
                    op: request.op,
                    cycle,
                })?;
            }
        }
        Ok(())
    }

    /// Records the first `cycles` cycles of a run, and gives the machine at the end. An error says
    /// that memory was refused.
    fn record(
        &mut self,
        alloc: Global,
        config: &Config,
        program: &Program,
        cycles: u32,
    ) -> Result<Machine, AllocError>
        requires cycles { cycles ≤ MOST_CYCLES }
        requires before { Records self.old empty_log }
        ensures log { OnOk result (Records self.new (history config.now program.now cycles).log) }
        ensures machine { IfOk result (HasRun config.now program.now cycles) }
    {
        let mut machine = Machine::new(alloc, config, program)?;
        self.record_cycles(&mut machine, cycles)?;
        Ok(machine)
    }

    /// Records a machine from its start for `cycles` cycles, or until it is quiet. An error says
    /// that memory was refused.
    fn record_cycles(&mut self, machine: &mut Machine, cycles: u32) -> Result<(), AllocError>
        requires cycles { cycles ≤ MOST_CYCLES }
        requires start { machine.old.state ≡ start machine.old.settings }
        requires before { Records self.old empty_log }
        ensures log { OnOk result
            (Records self.new (history machine.old.settings machine.old.program cycles).log) }
        ensures machine { OnOk result
            (HasRun machine.old.settings machine.old.program cycles machine.new) }
    {
        for cycle in 0..cycles {
            machine.cycle();
            self.note_all(cycle, machine.events())?;
            if machine.is_quiet() {
                break;
            }
        }
        Ok(())
    }

    /// The log.
    fn into_log(self) -> Log
        ensures { log_of result ≡ log_of self.log }
    {
        let LogRecorder { log, numbers: _ } = self;
        log
    }
}

/// What a run of n cycles, at most 1,000,000, issued and answered. `NoMemory` means that memory was
/// refused.
pub fn log(
    alloc: Global,
    config: &Config,
    program: &Program,
    cycles: u32,
) -> Result<Log, OrderFault>
    requires { cycles ≤ MOST_CYCLES }
    ensures { IfOk result (λ log. log_of log ≡ (history config.now program.now cycles).log) }
{
    let (log, _) = log_and_machine(alloc, config, program, cycles)?;
    Ok(log)
}

/// What a run of n cycles, at most 1,000,000, issued and answered, and the machine after them, or
/// where it was quiet first. `NoMemory` means that memory was refused.
pub fn log_and_machine(
    alloc: Global,
    config: &Config,
    program: &Program,
    cycles: u32,
) -> Result<(Log, Machine), OrderFault>
    requires { cycles ≤ MOST_CYCLES }
    ensures log { IfOk result (λ run. log_of run.0 ≡ (history config.now program.now cycles).log) }
    ensures machine { IfOk result (λ run. HasRun config.now program.now cycles run.1) }
{
    let mut recording = LogRecorder::new(alloc, config)?;
    let machine = recording.record(alloc, config, program, cycles)?;
    Ok((recording.into_log(), machine))
}
