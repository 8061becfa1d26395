//! A cycle of the whole machine in six halves, and the law that the six make up one cycle of the
//! definition. The machine is given by functions from numbers to its units and links.
#![tactic(auto)]

ghost use Rattle.ultra_cycle_law.specs.Law.{CycleLaw};

/// The law of a cycle, as this function's contract, for a machine that is between two cycles. The
/// six halves make up one cycle of the definition, and the conditions of each half are met. After
/// them the machine is again between two cycles. The function itself does nothing.
pub fn cycle_law()
    ensures made { CycleLaw }
{}
