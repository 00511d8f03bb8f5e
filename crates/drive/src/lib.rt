// The plant: the words of the table's rows, each at its line, and the drive's numbers that are no rows, with the rules of document 01 for host events, the fault flags and what runs, and the status word that is kept.
// It knows nothing of messages or ports: reading and writing a row are crates of their own. Calls are lent the plant where it lies.
#![tactic(auto)]

mod events;
mod faults;
mod plant;
mod status;

pub use events::{Measured, end_cause, measure, port_fault, raise_fault, set_din1};
pub use faults::{acknowledge, clear_14, only_14, stop};
pub use plant::{CAUSES, DIN1, FLAGS, Plant, STATION, restart, start};
pub use status::{flag_stands, right_status, running};
