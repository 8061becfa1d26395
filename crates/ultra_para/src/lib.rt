//! The paracomputer, whose memory acts at once, and the law that careful programs can't distinguish
//! the machine from it.
#![tactic(auto)]

mod at_once;
mod careful;
mod paracomputer;

ghost use Rattle.ultra_para.specs.Law.{ParacomputerLaw};

pub use at_once::{StepReport, step_at_once};
pub use careful::{first_unfenced, is_careful};
pub use paracomputer::Para;

/// The paracomputer law, as this function's contract. It holds for all settings in their ranges,
/// every careful program and every number of cycles. There is a schedule after which the
/// paracomputer has the machine's cells. After the same schedule it has, for each processing
/// element that has no open cell in the machine, its registers, program counter and state.
///
/// The paracomputer is the 1983 paper's; the machine is this project's profile of it. The function
/// itself does nothing.
pub fn paracomputer_law()
    ensures sees_paracomputer { ParacomputerLaw }
{}
