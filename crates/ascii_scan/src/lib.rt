// Modbus ASCII as a stream: scanning the bytes that come for the first message, and the bytes that the message spells.
// What a message is stands in the crate `ascii`, as a format of the left-to-right reading.
#![tactic(auto)]

mod digits;
mod message;
mod pairs;
mod scanning;

pub use message::{message_bytes, unit_among};
pub use scanning::scan;
