// NFO serial: taking a message apart into ADR, parameter and value, and writing REPLY, ACK and NAK.
// Which bytes are a message stands in `nfo`.
#![tactic(auto)]

mod message;
mod replies;

pub use message::{Message, read_message, value_of};
pub use replies::{ack, nak, reply};
