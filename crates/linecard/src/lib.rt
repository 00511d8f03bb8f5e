// The card for firmware: functions over a card that lies in the host's memory, which the static library `linecard_c` exports to C and Rust.
//
// Each is lent the parts of the card that it touches, where they lie, and keeps the promise of the routine that it lifts: the card afterwards, the outcome's
// number, and every byte of lent memory. That the parts stay apart, as `held`, `len`, `port`, `plant` and `identity`, and that numbers stand for a protocol, an outcome and
// for yes and no, is the interface of C (`include/linecard.h`).
#![tactic(auto)]

pub mod calls;
pub mod events;
