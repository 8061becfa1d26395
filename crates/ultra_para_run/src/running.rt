//! Runs along a schedule, and their texts.

ghost use Rattle.std.specs.Prelude.{◌≡◌, ◌≢◌, ◌+◌, ◌<◌, ◌≤◌, ◌++◌, [], All, OnOk, OnErr, IfErr, false, length};
ghost use Rattle.ultra_msg.specs.Bytes.{TakesPrefix};
ghost use Rattle.ultra_io.specs.TextBuffer.{Writes, has_failed};
ghost use Rattle.ultra_model.specs.Machine.{Settings, size};
ghost use Rattle.ultra_trace_alone.specs.{declared.fault.RunFault.TheVariants.{NoMemory, NoThread}, Faults.sink_faults};
ghost use Rattle.ultra_para_run.specs.{ParaText.{para_text, steps_text, unless_only_end}, SeededSchedule.{most_steps, seeded_schedule}, Steps.HasMade};

use crate::drawing::{highest_bits, next_number};
use crate::ending::put_end;
use crate::steps::{ParaRun, new_run, put_step};
use std::alloc::Global;
use ultra_io::TextBuffer;
use ultra_isa::Program;
use ultra_model::Config;
use ultra_msg::{Pe, Sink, SinkFault};
use ultra_trace_alone::RunFault;

/// Runs a program on a paracomputer of these settings along a schedule, and writes the text of the
/// run to a sink. The text is the lines of the steps, unless only the end is asked for, and the
/// lines at the end. After a fault the sink has taken a prefix of it.
///
/// `Write` says that the sink failed, and `NoMemory` that memory was refused; it is asked for only
/// before the first byte is written. Never returns `NoThread`.
pub fn write_para<S: Sink>(
    alloc: Global,
    config: &Config,
    program: &Program,
    schedule: &[Pe],
    only_end: bool,
    sink: &mut S,
) -> Result<(), RunFault>
    requires { All (λ p. p < size config.now) schedule.now }
    ensures ok { OnOk result (S.taken sink.new ≡
        S.taken sink.old ++ para_text config.now program.now only_end schedule.now) }
    ensures still { OnOk result (S.failures sink.new ≡ S.failures sink.old) }
    ensures err { OnErr result (TakesPrefix (para_text config.now program.now only_end schedule.now)
        (S.taken sink.old) (S.taken sink.new)) }
    ensures counted { IfErr result (λ e.
        S.failures sink.new ≡ S.failures sink.old + sink_faults e) }
    ensures alone { IfErr result (λ e. e ≢ NoThread) }
    ensures memory_first { IfErr result (λ e. e ≡ NoMemory → S.taken sink.new ≡ S.taken sink.old) }
{
    let mut run = new_run(alloc, config, program)?;
    write_run(&mut run, schedule, only_end, sink)?;
    Ok(())
}

/// Makes the steps of a schedule from the start on, and writes the text of the run to a sink. After
/// a fault the sink has taken a prefix of it.
fn write_run<S: Sink>(
    run: &mut ParaRun,
    schedule: &[Pe],
    only_end: bool,
    sink: &mut S,
) -> Result<(), SinkFault>
    requires there { All (λ p. p < size run.old.para.settings) schedule.now }
    requires start { HasMade run.old.para.settings run.old.para.program [] run.old }
    ensures ok { OnOk result (S.taken sink.new ≡ S.taken sink.old ++
        para_text run.old.para.settings run.old.para.program only_end schedule.now) }
    ensures still { OnOk result (S.failures sink.new ≡ S.failures sink.old) }
    ensures err { OnErr result
        (TakesPrefix (para_text run.old.para.settings run.old.para.program only_end schedule.now)
        (S.taken sink.old) (S.taken sink.new)) }
    ensures counted { OnErr result (S.failures sink.new ≡ S.failures sink.old + 1) }
{
    let mut buffer = TextBuffer::new(sink);
    put_run(&mut buffer, run, schedule, only_end);
    buffer.finish()
}

/// Makes the steps of a schedule from the start on, and writes the text of the run. It ends early
/// where the sink fails.
fn put_run<S: Sink>(
    buffer: &mut TextBuffer<'_, S>,
    run: &mut ParaRun,
    schedule: &[Pe],
    only_end: bool,
)
    requires there { All (λ p. p < size run.old.para.settings) schedule.now }
    requires start { HasMade run.old.para.settings run.old.para.program [] run.old }
    ensures { Writes S.taken S.failures
        (para_text run.old.para.settings run.old.para.program only_end schedule.now)
        buffer.old buffer.new }
{
    put_steps(buffer, run, schedule, only_end);
    put_end(buffer, &run.para, schedule.len());
}

/// Makes the steps of a schedule, and writes their lines, unless only the end is asked for. It ends
/// early where the sink fails.
fn put_steps<S: Sink>(
    buffer: &mut TextBuffer<'_, S>,
    run: &mut ParaRun,
    schedule: &[Pe],
    only_end: bool,
)
    requires there { All (λ p. p < size run.old.para.settings) schedule.now }
    requires start { HasMade run.old.para.settings run.old.para.program [] run.old }
    ensures writes { Writes S.taken S.failures (unless_only_end only_end
        (steps_text run.old.para.settings run.old.para.program schedule.now))
        buffer.old buffer.new }
    ensures made { has_failed buffer.new ≡ false → HasMade run.old.para.settings
        run.old.para.program schedule.now run.new }
{
    // for the prover: there are at most 64 processing elements
    let _elements = run.para.processors();
    for &pe in schedule {
        put_step(buffer, run, pe, only_end);
        if buffer.has_failed() {
            return;
        }
    }
}

/// Runs a program on a paracomputer of these settings along the schedule that is drawn from a
/// number, and writes the text of the run to a sink. The schedule ends once all processing elements
/// have stopped, or after `steps` steps, by default as many as the machine could make in all its
/// cycles.
///
/// It fails as [`write_para`] does.
pub fn write_seeded<S: Sink>(
    alloc: Global,
    config: &Config,
    program: &Program,
    seed: u64,
    steps: Option<u32>,
    only_end: bool,
    sink: &mut S,
) -> Result<(), RunFault>
    ensures ok { OnOk result
        (S.taken sink.new ≡ S.taken sink.old ++ para_text config.now program.now only_end
        (seeded_schedule config.now program.now seed (most_steps config.now steps))) }
    ensures still { OnOk result (S.failures sink.new ≡ S.failures sink.old) }
    ensures err { OnErr result (TakesPrefix (para_text config.now program.now only_end
        (seeded_schedule config.now program.now seed (most_steps config.now steps)))
        (S.taken sink.old) (S.taken sink.new)) }
    ensures counted { IfErr result (λ e.
        S.failures sink.new ≡ S.failures sink.old + sink_faults e) }
    ensures alone { IfErr result (λ e. e ≢ NoThread) }
    ensures memory_first { IfErr result (λ e. e ≡ NoMemory → S.taken sink.new ≡ S.taken sink.old) }
{
    let most = steps_asked(config, steps);
    let mut run = new_run(alloc, config, program)?;
    write_drawn(&mut run, config.stages(), seed, most, only_end, sink)?;
    Ok(())
}

/// Makes the steps of the schedule that is drawn from a number, from the start on, and writes the
/// text of the run to a sink. After a fault the sink has taken a prefix of it.
fn write_drawn<S: Sink>(
    run: &mut ParaRun,
    stages: u32,
    seed: u64,
    most: u32,
    only_end: bool,
    sink: &mut S,
) -> Result<(), SinkFault>
    requires some { 1 ≤ stages }
    requires few { stages ≤ 6 }
    requires stages { stages ≡ run.old.para.settings.stages }
    requires start { HasMade run.old.para.settings run.old.para.program [] run.old }
    ensures ok { OnOk result (S.taken sink.new ≡
        S.taken sink.old ++ para_text run.old.para.settings run.old.para.program only_end
        (seeded_schedule run.old.para.settings run.old.para.program seed most)) }
    ensures still { OnOk result (S.failures sink.new ≡ S.failures sink.old) }
    ensures err { OnErr result (TakesPrefix (para_text run.old.para.settings run.old.para.program
        only_end (seeded_schedule run.old.para.settings run.old.para.program seed most))
        (S.taken sink.old) (S.taken sink.new)) }
    ensures counted { OnErr result (S.failures sink.new ≡ S.failures sink.old + 1) }
{
    let mut buffer = TextBuffer::new(sink);
    put_drawn_run(&mut buffer, run, stages, seed, most, only_end);
    buffer.finish()
}

/// Makes the steps of the schedule that is drawn from a number, from the start on, and writes the
/// text of the run. It ends early where the sink fails.
fn put_drawn_run<S: Sink>(
    buffer: &mut TextBuffer<'_, S>,
    run: &mut ParaRun,
    stages: u32,
    seed: u64,
    most: u32,
    only_end: bool,
)
    requires some { 1 ≤ stages }
    requires few { stages ≤ 6 }
    requires stages { stages ≡ run.old.para.settings.stages }
    requires start { HasMade run.old.para.settings run.old.para.program [] run.old }
    ensures { Writes S.taken S.failures (para_text run.old.para.settings run.old.para.program
        only_end (seeded_schedule run.old.para.settings run.old.para.program seed most))
        buffer.old buffer.new }
{
    let made = put_drawn(buffer, run, stages, seed, most, only_end);
    put_end(buffer, &run.para, made as usize);
}

/// How many steps are made at most.
fn steps_asked(config: &Config, steps: Option<u32>) -> u32
    ensures { result ≡ most_steps config.now steps }
{
    match steps {
        Some(most) => most,
        None => config.cycles() * config.net().size(),
    }
}

/// Makes the steps of the schedule that is drawn from a number, at most `most`, and writes their
/// lines, unless only the end is asked for. Gives the number of steps. It ends early where the sink
/// fails.
fn put_drawn<S: Sink>(
    buffer: &mut TextBuffer<'_, S>,
    run: &mut ParaRun,
    stages: u32,
    seed: u64,
    most: u32,
    only_end: bool,
) -> u32
    requires some { 1 ≤ stages }
    requires few { stages ≤ 6 }
    requires stages { stages ≡ run.old.para.settings.stages }
    requires start { HasMade run.old.para.settings run.old.para.program [] run.old }
    ensures writes { Writes S.taken S.failures
        (unless_only_end only_end (steps_text run.old.para.settings run.old.para.program
        (seeded_schedule run.old.para.settings run.old.para.program seed most)))
        buffer.old buffer.new }
    ensures made { has_failed buffer.new ≡ false → HasMade run.old.para.settings
        run.old.para.program (seeded_schedule run.old.para.settings run.old.para.program seed most)
        run.new }
    ensures count { has_failed buffer.new ≡ false → result ≡ length
        (seeded_schedule run.old.para.settings run.old.para.program seed most) }
{
    let mut x = seed;
    for made in 0..most {
        if run.para.have_all_stopped() {
            return made;
        }
        x = next_number(x);
        put_step(buffer, run, highest_bits(x, stages), only_end);
        if buffer.has_failed() {
            return made;
        }
    }
    most
}
