// What a call on bytes from the line hands back, by any protocol: a `Turn` with the whole card, or a `Turned` where the card's parts are lent, as C lends them.
// `short_buffer` and `nothing_taken` are the calls that take no message; `after_message` restarts the time sum once one was served.
#![tactic(auto)]

ghost use Rattle.std.specs.Prelude.{◌≡◌};
ghost use Rattle.turn.specs.Turn.{port_after};
ghost use Rattle.turn.specs.Turned.{short_in, waiting_in};

use answers::Answer;
use card::{Card, Outcome};
use pending::Scanned;
use port::{Numbers, SUM};

// The card, the outcome, how many bytes were used, and the length of the reply, 0 where there is none, as C is told it.
#[derive(Clone, Copy)]
pub struct Turn {
    pub card: Card,
    pub outcome: Outcome,
    pub used: usize,
    pub len: usize,
}

// A turn of a card whose parts are lent: how many bytes are pending, the outcome, how many bytes were used, and the length of the reply. Two structs and no generic one:
// `turn_of` names a card there, `turn_in` a count here.
#[derive(Clone, Copy)]
pub struct Turned {
    pub pending: usize,
    pub outcome: Outcome,
    pub used: usize,
    pub len: usize,
}

// The reply buffer is too short: 10, no byte is used and nothing changes.
pub fn short_buffer(pending: usize) -> Turned
    ensures { result ≡ short_in pending }
{
    Turned {
        pending,
        outcome: Outcome::ShortBuffer,
        used: 0,
        len: 0,
    }
}

// Nothing is taken: 15, and what the scan left is pending.
pub fn nothing_taken(scan: Scanned) -> Turned
    ensures { result ≡ waiting_in scan }
{
    Turned {
        pending: scan.len,
        outcome: Outcome::NothingTaken,
        used: scan.used,
        len: 0,
    }
}

// The port once a message was served: one of outcome other than 1 restarts the time sum.
pub fn after_message(port: &mut Numbers, answer: Answer)
    ensures { port.new ≡ port_after answer port.old }
{
    if !matches!(answer, Answer::NotOurs) {
        port[SUM] = 0;
    }
}
