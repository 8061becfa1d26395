//! The coordination programs on the paracomputer.

ghost use Rattle.std.specs.Prelude.{◌≡◌, ◌↔◌, ◌<◌, ◌&&◌, All, Bool, false, List, [], IfOk, slice_index};
ghost use Rattle.ultra_isa.specs.declared.Instr.{Instr};
ghost use Rattle.ultra_model.specs.{Machine.{size, is_empty}, Ranges.AreInRange};
ghost use Rattle.ultra_para.specs.Para.{start_para, run_para};
ghost use Rattle.ultra_colib.specs.{Gate.{gate, AreFewInside}, ReadersWriters.{readers_writers, AreWritersAlone}, Barrier.{barrier, AreInStep}, Queue.{queue, AreItemsOnce}, Parameters.{gate_takes, rw_takes, barrier_takes, queue_takes}};

use crate::ColibFault;
use crate::programs::{barrier_program, gate_program, queue_program, rw_program};
use std::alloc::Global;
use ultra_isa::Program;
use ultra_model::Config;
use ultra_msg::Pe;
use ultra_para::Para;

/// The paracomputer with these settings, all of whose cells are 0 at first, after a schedule of the
/// program that a generator gave.
///
/// `BadParameter` means that the generator gave it or that cells have initial values.
fn run(
    alloc: Global,
    config: &Config,
    program: Result<Program, ColibFault>,
    schedule: &[Pe],
) -> Result<Para, ColibFault>
    requires { All (λ p. p < size config.now) schedule.now }
    ensures state { (p : List Instr) → IfOk program (λ q. q ≡ p) →
        IfOk result (λ m. m ≡ record {
          settings = config.now;
          program = p;
          state = run_para config.now p (start_para config.now) schedule.now;
        }) }
    ensures start { IfOk result (λ _. AreInRange config.now × (config.now.initial ≡ [])) }
    ensures parameters { (takes : Bool) →
        ((program ≡ Err ColibFault.BadParameter) ↔ (takes ≡ false)) →
        ((result ≡ Err ColibFault.BadParameter) ↔
        ((is_empty config.now.initial && takes) ≡ false)) }
{
    if !config.initial().is_empty() {
        return Err(ColibFault::BadParameter);
    }
    let program = program?;
    let mut para = Para::new(alloc, config, &program)?;
    para.run(schedule);
    Ok(para)
}

/// The gate on a paracomputer with these settings, all of whose cells are 0 at first, after a
/// schedule. Each of its numbers is the processing element that makes the step, and has to be below
/// the number of processing elements.
///
/// At most `bound` processing elements are inside. `BadParameter` means that a parameter is out of
/// its range or that cells have initial values, `NoMemory` that memory was refused.
pub fn run_gate(
    alloc: Global,
    config: &Config,
    bound: u32,
    rounds: u32,
    schedule: &[Pe],
) -> Result<Para, ColibFault>
    requires { All (λ p. p < size config.now) schedule.now }
    ensures state { IfOk result (λ m. m ≡ record {
      settings = config.now;
      program = gate bound rounds;
      state = run_para config.now (gate bound rounds) (start_para config.now) schedule.now;
    }) }
    ensures law { IfOk result (λ m.
        AreFewInside bound (size config.now) (slice_index m.state.cells)) }
    ensures parameters { (result ≡ Err ColibFault.BadParameter) ↔
        ((is_empty config.now.initial && gate_takes bound rounds) ≡ false) }
{
    run(alloc, config, gate_program(alloc, bound, rounds), schedule)
}

/// The readers and writers on a paracomputer with these settings, all of whose cells are 0 at
/// first, after a schedule. Each of its numbers is the processing element that makes the step, and
/// has to be below the number of processing elements.
///
/// Where a writer is inside, nobody else is. `BadParameter` means that a parameter is out of its
/// range or that cells have initial values, `NoMemory` that memory was refused.
pub fn run_rw(
    alloc: Global,
    config: &Config,
    writers: u32,
    rounds: u32,
    schedule: &[Pe],
) -> Result<Para, ColibFault>
    requires { All (λ p. p < size config.now) schedule.now }
    ensures state { IfOk result (λ m. m ≡ record {
      settings = config.now;
      program = readers_writers writers rounds;
      state = run_para config.now
          (readers_writers writers rounds) (start_para config.now) schedule.now;
    }) }
    ensures law { IfOk result (λ m. AreWritersAlone (size config.now) (slice_index m.state.cells)) }
    ensures parameters { (result ≡ Err ColibFault.BadParameter) ↔
        ((is_empty config.now.initial && rw_takes writers rounds) ≡ false) }
{
    run(alloc, config, rw_program(alloc, writers, rounds), schedule)
}

/// The barrier on a paracomputer with these settings, all of whose cells are 0 at first, after a
/// schedule. Each of its numbers is the processing element that makes the step, and has to be below
/// the number of processing elements.
///
/// Nobody has finished more rounds than anybody has begun. `BadParameter` means that the rounds are
/// out of their range or that cells have initial values, `NoMemory` that memory was refused.
pub fn run_barrier(
    alloc: Global,
    config: &Config,
    rounds: u32,
    schedule: &[Pe],
) -> Result<Para, ColibFault>
    requires { All (λ p. p < size config.now) schedule.now }
    ensures state { IfOk result (λ m. m ≡ record {
      settings = config.now;
      program = barrier rounds;
      state = run_para config.now (barrier rounds) (start_para config.now) schedule.now;
    }) }
    ensures law { IfOk result (λ m. AreInStep (size config.now) (slice_index m.state.cells)) }
    ensures parameters { (result ≡ Err ColibFault.BadParameter) ↔
        ((is_empty config.now.initial && barrier_takes rounds) ≡ false) }
{
    run(alloc, config, barrier_program(alloc, rounds), schedule)
}

/// The queue with `2^log_size` places on a paracomputer with these settings, all of whose cells are
/// 0 at first, after a schedule. Each of its numbers is the processing element that makes the step,
/// and has to be below the number of processing elements.
///
/// The results that aren't 0 are pairwise different inserted values, each with its own ticket.
/// `BadParameter` means that a parameter is out of its range or that cells have initial values,
/// `NoMemory` that memory was refused.
pub fn run_queue(
    alloc: Global,
    config: &Config,
    log_size: u32,
    rounds: u32,
    schedule: &[Pe],
) -> Result<Para, ColibFault>
    requires { All (λ p. p < size config.now) schedule.now }
    ensures state { IfOk result (λ m. m ≡
        record {
          settings = config.now;
          program = queue log_size rounds;
          state = run_para config.now
              (queue log_size rounds) (start_para config.now) schedule.now;
        }) }
    ensures law { IfOk result (λ m.
        AreItemsOnce log_size rounds (size config.now) (slice_index m.state.cells)) }
    ensures parameters { (result ≡ Err ColibFault.BadParameter) ↔
        ((is_empty config.now.initial && queue_takes log_size rounds) ≡ false) }
{
    run(
        alloc,
        config,
        queue_program(alloc, log_size, rounds),
        schedule,
    )
}
