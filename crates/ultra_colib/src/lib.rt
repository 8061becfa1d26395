//! The coordination library: programs in which processing elements coordinate by fetch-and-add, and
//! the laws that they keep whatever the schedule.
#![tactic(auto)]

mod fault;
mod laws;
mod programs;
mod runs;
mod texts;

ghost use Rattle.ultra_colib.specs.Laws.{CoordinationLaw};

pub use fault::ColibFault;
pub use laws::{
    barrier_law, gate_law, queue_law, readers_writers_law, ticket_rounds_law, tickets_law,
};
pub use programs::{barrier_program, gate_program, queue_program, rw_program, tickets_program};
pub use runs::{run_barrier, run_gate, run_queue, run_rw};
use ultra_para::paracomputer_law;

/// The law of coordination, as this function's contract: the machine's cells keep the law of each
/// coordination program that it runs. It holds for all settings in their ranges without initial
/// values, all parameters and every number of cycles. The function itself does nothing.
pub fn coordination_law()
    ensures kept { CoordinationLaw }
{
    paracomputer_law();
}
