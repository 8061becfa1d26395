//! Laws of every run.

ghost use Rattle.std.specs.Prelude.{ℕ, List};
ghost use Rattle.ultra_isa.specs.declared.Instr.{Instr};
ghost use Rattle.ultra_latency.specs.{Few.HasFewEvents, Open.IsOpenLaw};

use ultra_model::Config;

/// The law of open requests, for these settings, every run and every number of cycles. The events
/// of the next cycle change the open requests as the machine does, and the latencies that they show
/// are those of the definition.
pub fn law_of_open_requests(config: &Config)
    ensures { (program : List Instr) (n : ℕ) → IsOpenLaw config.now program n }
{
    // for the prover: the settings are in their ranges
    let _valid = config.initial();
}

/// A cycle has few events, and few faults, for these settings.
pub fn law_of_few_events(config: &Config)
    ensures { (program : List Instr) (n : ℕ) → HasFewEvents config.now program n }
{
    // for the prover: the settings are in their ranges
    let _valid = config.initial();
}
