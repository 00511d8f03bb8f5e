// A call on bytes from the line, and what a program reports of it: document 01's "a line per taken message", for any protocol.
ghost use Rattle.std.specs.Prelude.{◌≡◌, ◌<◌, ◌≤◌, length};
ghost use Rattle.base.specs.Buffers.{front, ascii_least};
ghost use Rattle.receive.specs.Receive.{received};
ghost use Rattle.session_loop.specs.Line.{line_of, reported, reported_on};

use crate::line::{LINE_MOST, write_line};
use base::ASCII_REPLY;
use card::Card;

// How many bytes were used, the length of the reply, and that of the line, each 0 where there is none.
#[derive(Clone, Copy)]
pub(crate) struct Reported {
    pub(crate) used: usize,
    pub(crate) reply: usize,
    pub(crate) line: usize,
}

// Serves the first message of the bytes by the port's protocol. Its reply is put at the start of `reply`, its line at the start of `text`: the outcome, a space,
// the reply in hex or `-`, a line's end. Where no message was taken there is neither. Where there is a byte, one at least is used.
pub(crate) fn serve(
    card: &mut Card,
    bytes: &[u8],
    reply: &mut [u8; ASCII_REPLY],
    text: &mut [u8; LINE_MOST],
) -> Reported
    ensures turn { reported_on card.new result ≡ reported (received card.old bytes.now ascii_least) }
    ensures lent { reply.new ≡ front (received card.old bytes.now ascii_least).reply reply.old }
    ensures shown { text.new ≡ front (line_of (received card.old bytes.now ascii_least)) text.old }
    ensures used { (result.used ≤ length bytes.now) × (0 < length bytes.now → 0 < result.used) }
    ensures fits { (result.reply ≤ 151) × (result.line ≤ 306) }
{
    let turn = receive::receive_on(card, bytes, reply);
    let number = turn.outcome.number();
    let line = if number <= 9 {
        write_line(number, &reply[..turn.len], text)
    } else {
        0
    };
    Reported {
        used: turn.used,
        reply: turn.len,
        line,
    }
}
