//! The order in which the rules list what happens in a cycle.

ghost use Rattle.std.specs.Prelude.{◌≡◌, ℕ};
ghost use Rattle.ultra_partition.specs.Events.{event_rank, event_rank_count};

use ultra_model::Stop;
use ultra_msg::Event;
use ultra_partition::Ranking;
use ultra_route::Net;
use ultra_topology::{MOST_UNITS, switch_count};

/// Ranks events in the order of the rules: deliveries by processing element, servings by module,
/// combinations by switch, issues by processing element.
#[derive(Clone, Copy, Drop)]
pub struct ByRules {
    /// The machine's network.
    pub net: Net,
}

impl Ranking<Event> for ByRules {
    ghost rank_of = { λ order event. event_rank order.net event };

    ghost rank_count = { λ _. event_rank_count };

    fn rank(&self, entry: &Event) -> usize {
        let net = self.net;
        let switches = switch_count(net);
        let size = net.size() as usize;
        match *entry {
            Event::Delivered(reply) => switches + size + reply.pe as usize,
            Event::Served { module, .. } => MOST_UNITS + switches + module as usize,
            Event::Combined {
                stage,
                position,
                ..
            } => 2 * MOST_UNITS + stage as usize * (size / 2) + position as usize / 2,
            Event::Issued { request, .. } => 3 * MOST_UNITS + switches + size + request.pe as usize,
        }
    }
}

/// Ranks faults by processing element.
#[derive(Clone, Copy, Drop)]
pub struct ByElement;

impl Ranking<Stop> for ByElement {
    ghost rank_of = { λ _ stop. stop.pe };

    ghost rank_count = { λ _. 64 };

    fn rank(&self, entry: &Stop) -> usize {
        entry.pe as usize
    }
}
