// Words and laws that every crate cites: choices by a test, lists of bytes, and what a lent buffer holds afterwards. Its code is three numbers.
#![tactic(auto)]

// The least reply buffer of each protocol, in bytes: a call with a shorter one is outcome 10. No reply is longer.
pub const NFO_REPLY: usize = 19;

pub const RTU_REPLY: usize = 256;

pub const ASCII_REPLY: usize = 513;
