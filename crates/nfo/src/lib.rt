// NFO serial: scanning the bytes that come for the first message.
// What a message is stands in specs/, as a format of the left-to-right reading.
#![tactic(auto)]

mod scanning;

pub use scanning::scan;
