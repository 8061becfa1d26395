//! The serial order of what a machine's requests did, its log, and whether a serial list explains a
//! log.
#![tactic(auto)]

mod by_name;
mod by_pair;
mod checking;
mod dense_memory;
mod examining;
mod latest;
mod latest_numbers;
mod log_recorder;
mod memory;
mod ordered_run;
mod pending_requests;
mod pending_row;
mod records_by_name;
mod request_name;
mod serial_state;

pub use checking::{BreachKind, CheckFault, check};
pub use latest::latest_issued_entry;
pub use log_recorder::{log, log_and_machine};
pub use memory::SerialMemory;
pub use ordered_run::{OrderedRun, order};
pub use serial_state::OrderFault;
pub use ultra_serial_law::{
    Entry, Log, LoggedAnswer, LoggedIssue, NamedRequest, SerialList, explaining_law, hot_spot_law,
    reply_law, serialization_law,
};
