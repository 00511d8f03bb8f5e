// The card: a plant behind a port. It starts, restarts and is told of host events; bytes from the line come to it by `receive`.
//
// Each method takes the whole state and hands it back, with the outcome of document 01's table; what ends in `_in` is lent the parts that it touches.
#![tactic(auto)]

mod events;
mod outcome;
mod state;

pub use events::{After, event_outcome, parity_fault_in, tick_in};
pub use outcome::Outcome;
pub use state::{Card, Port, Protocol, fresh_port, restarted_port};
