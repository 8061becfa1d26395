//! An example of a law in a crate by itself: a counter hands out each ticket once, on the machine
//! too.
#![tactic(auto)]

ghost use Rattle.ultra_example_law.specs.MachineTickets.{MachineTicketsLaw};

use ultra_colib::tickets_law;
use ultra_para::paracomputer_law;

/// The law of the ticket counter on the machine, as this function's contract.
///
/// For all settings in their ranges without initial values and every number of cycles, no two
/// processing elements hold the same ticket. The function itself does nothing.
pub fn tickets_on_machine()
    ensures different { MachineTicketsLaw }
{
    paracomputer_law();
    tickets_law();
}
