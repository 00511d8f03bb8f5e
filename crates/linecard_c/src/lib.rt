// The card for firmware: a static library of the functions that C and Rust call, over a card that lies in the host's memory. `include/linecard.h` declares them, and wraps
// each in one that takes a whole card.
//
// Each calls the function of the same name of `linecard`, and keeps its promise word for word. The parameters, parts of a card and plain numbers, are C's.
// The two crates are apart because a crate is built as a library or as a static library, not as both.
#![tactic(auto)]

pub mod calls;
pub mod events;
