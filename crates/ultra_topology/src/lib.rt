//! The units of a machine by their numbers: sets of them, and the links between them.
//!
//! `Wiring` says which unit has a number and what is beside each switch, and `Links` has the
//! message on each link. `find_reply_ways`, `has_request_way` and `has_way_from_element` say
//! whether a message may go on; `reply_inlets` and `request_inlets` say by which links messages
//! come to a unit.
#![tactic(auto)]

mod ends;
mod links;
mod numbers;
mod pass;
mod unit;
mod unit_set;
mod ways;
mod wiring;

pub use ends::{send_from_end, take_for_element, take_for_module};
pub use links::{Links, Message, ports_in_turn};
pub use numbers::{element_number, is_small, module_number, switch_count, switch_number};
pub use pass::{Visit, visit_all};
pub use unit::{Unit, empty_entries};
pub use unit_set::{UnitNumber, UnitSet};
pub use ways::{
    element_target, find_reply_ways, has_request_way, has_way_from_element, module_target,
};
pub use wiring::{Wiring, reply_inlets, request_inlets};

/// The most units of a machine: at 6 stages 192 switches, 64 modules and 64 processing elements.
pub const MOST_UNITS: usize = 320;
