//! The law of the lines.

ghost use Rattle.ultra_steps.specs.RegisterLaw.{RegisterLaw};

/// What the lines set are the registers, as this function's contract. It holds for all settings,
/// every program and every number of cycles: the registers of a processing element are 0 at first,
/// and then what the lines so far have set. The function itself does nothing.
pub fn register_law()
    ensures registers { RegisterLaw }
{}
