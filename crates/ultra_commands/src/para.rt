//! The command `para`: it runs the paracomputer, and writes what its steps do.

ghost use Rattle.std.specs.Prelude.{◌≡◌, ◌+◌, IfErr, IfOk, OnOk};
ghost use Rattle.ultra_inputs.specs.{Failure.{read_failures, write_failures}, Traffic.traffic};
ghost use Rattle.ultra_commands.specs.Paracomputer.{seeded_text, ExplainsSchedule, IsScheduleOf, ParaFails, ScheduledFails, WrotePara, WroteScheduled};

use crate::run_output::{RunOutput, write_run_output};
use crate::run_texts::failure_of_run_alone;
use crate::third_file::{ThirdFile, read_three};
use std::alloc::Global;
use ultra_args::ScheduleSource;
use ultra_inputs::{Failure, Inputs};
use ultra_io::Source;
use ultra_isa::Program;
use ultra_model::Config;
use ultra_msg::{Pe, Sink};
use ultra_para_run::{ScheduleFault, read_schedule, write_para, write_seeded};

/// The schedule that a file holds.
#[derive(Drop)]
pub struct ScheduledSteps {
    /// The processing element that makes each step.
    pub pes: Vec<Pe>,
}

impl ThirdFile for ScheduledSteps {
    ghost gives = { IsScheduleOf };

    ghost explains = { ExplainsSchedule };

    fn accept<'p>(
        alloc: Global,
        config: &Config,
        path: &'p str,
        bytes: &[u8],
    ) -> Result<Self, Failure<'p>> {
        match read_schedule(alloc, bytes, config.net().size()) {
            Ok(pes) => Ok(ScheduledSteps { pes }),
            Err(ScheduleFault::NoMemory) => Err(Failure::NoMemory),
            Err(ScheduleFault::BadPe(line)) => Err(Failure::BadPe { path, line }),
        }
    }
}

/// A run by a schedule that is drawn from a number.
#[derive(Drop)]
pub(crate) struct SeededRun {
    /// The number.
    pub(crate) seed: u64,
    /// The most steps, if a number is given.
    pub(crate) steps: Option<u32>,
    /// Whether only the end is written.
    pub(crate) only_end: bool,
}

impl RunOutput for SeededRun {
    ghost text = { λ r. seeded_text r.seed r.steps r.only_end };

    fn write<'p, S: Sink>(
        &self,
        alloc: Global,
        config: &Config,
        program: &Program,
        sink: &mut S,
    ) -> Result<(), Failure<'p>> {
        let written = write_seeded(
            alloc,
            config,
            program,
            self.seed,
            self.steps,
            self.only_end,
            sink,
        );
        match written {
            Ok(()) => Ok(()),
            Err(fault) => Err(failure_of_run_alone(fault)),
        }
    }
}

/// Reads settings and a program, and a schedule where its path is given. Runs the paracomputer by
/// the schedule, and writes to `out` what its steps did, and how it ended. Each file is accepted
/// before the next is read, and all before a byte is written.
///
/// An error says what failed. `out` has then taken a prefix of the text, and nothing where a file
/// was refused.
pub(crate) fn para<'p, F: Source, O: Sink>(
    alloc: Global,
    settings_path: &'p str,
    program_path: &'p str,
    schedule: ScheduleSource<'p>,
    only_end: bool,
    source: &mut F,
    out: &mut O,
) -> Result<(), Failure<'p>>
    ensures ok { OnOk result (WrotePara schedule.entry only_end settings_path.now program_path.now
        (traffic (F.files source.old) (O.taken out.old))
        (traffic (F.files source.new) (O.taken out.new))) }
    ensures err { IfErr result (ParaFails schedule.entry only_end settings_path.now program_path.now
        (traffic (F.files source.old) (O.taken out.old))
        (traffic (F.files source.new) (O.taken out.new))) }
    ensures read_still { OnOk result (F.failures source.new ≡ F.failures source.old) }
    ensures read_counted { IfErr result
        (λ f. F.failures source.new ≡ F.failures source.old + read_failures f) }
    ensures write_still { OnOk result (O.failures out.new ≡ O.failures out.old) }
    ensures write_counted { IfErr result
        (λ f. O.failures out.new ≡ O.failures out.old + write_failures f) }
{
    match schedule {
        ScheduleSource::File(path) => {
            para_by_file(
                alloc,
                settings_path,
                program_path,
                path,
                only_end,
                source,
                out,
            )
        }
        ScheduleSource::Seed { seed, steps } => {
            let run = SeededRun {
                seed,
                steps,
                only_end,
            };
            write_run_output(alloc, settings_path, program_path, &run, source, out)
        }
    }
}

/// Runs the paracomputer by the schedule of a file.
fn para_by_file<'p, F: Source, O: Sink>(
    alloc: Global,
    settings_path: &'p str,
    program_path: &'p str,
    schedule_path: &'p str,
    only_end: bool,
    source: &mut F,
    out: &mut O,
) -> Result<(), Failure<'p>>
    ensures ok { OnOk result (WroteScheduled only_end settings_path.now
        program_path.now schedule_path.now (traffic (F.files source.old) (O.taken out.old))
        (traffic (F.files source.new) (O.taken out.new))) }
    ensures err { IfErr result (ScheduledFails only_end settings_path.now program_path.now
        schedule_path.now (traffic (F.files source.old) (O.taken out.old))
        (traffic (F.files source.new) (O.taken out.new))) }
    ensures read_still { OnOk result (F.failures source.new ≡ F.failures source.old) }
    ensures read_counted { IfErr result
        (λ f. F.failures source.new ≡ F.failures source.old + read_failures f) }
    ensures write_still { OnOk result (O.failures out.new ≡ O.failures out.old) }
    ensures write_counted { IfErr result
        (λ f. O.failures out.new ≡ O.failures out.old + write_failures f) }
{
    let (inputs, steps) = read_three(alloc, settings_path, program_path, schedule_path, source)?;
    let Inputs { config, program } = &inputs;
    let ScheduledSteps { pes } = &steps;
    match write_para(alloc, config, program, pes.as_slice(), only_end, out) {
        Ok(()) => Ok(()),
        Err(fault) => Err(failure_of_run_alone(fault)),
    }
}
