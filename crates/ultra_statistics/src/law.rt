//! Laws of the two tables.

ghost use Rattle.ultra_statistics.specs.{LatencyLaw.{LatencyLaw}, PortLaw.{PortLaw}};

/// The rows of the ports of a stage give the measures of the stage, as this function's contract.
/// Their sums add up to those measures, the greatest of what each held at most is the measure, and
/// the full wait buffers and the combinations add up. It holds for all settings, every program and
/// every window. The function itself does nothing.
pub fn law_of_ports()
    ensures ports { PortLaw }
{}

/// The counts of the histogram's rows add up to the deliveries of the window, as this function's
/// contract. It holds for all settings, every program and every window. The function itself does
/// nothing.
pub fn law_of_latencies()
    ensures latencies { LatencyLaw }
{}
