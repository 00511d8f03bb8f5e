// The session of document 01's case 9, and for any protocol what a program does with the bytes of one read: a line for each message taken.
//
// No contract can say what is read and written. All between the two is promised: by `serve` the card after a call, its reply and the text of its line, and by
// `serve_all` the card that it hands on: the one at which the calls on what one read hands over end, the last byte used. Where writing fails the error is the
// writer's own, and the card is left between two of those calls.
#![tactic(auto)]

mod call;
mod line;

ghost use Rattle.std.specs.Prelude.{◌≡◌, IfOk, OnErr};
ghost use Rattle.session_loop.specs.Handed.{EndsAt, Handed, Stopped};

use base::ASCII_REPLY;
use call::serve;
use card::{Card, Protocol};
use identity::BLANK;
use line::LINE_MOST;
use std::io;
use std::io::{Read, Write};

// The session: reads NFO serial to the input's end, from a fresh card on, whose identity nobody asks for there. Each line is written as soon as the last byte of
// its message was read.
pub fn run<R: Read, L: Write>(input: &mut R, lines: &mut L) -> io::Result<()>
    ensures { IfOk result (λ u. u ≡ tt) }
{
    let mut card = Card::start(Protocol::Nfo, BLANK);
    let mut scrap = [0u8; 4096];
    let mut nobody = io::sink();
    // no `loop`: one that may not end needs the handle Wait, which this repository has none of
    for _ in 0..u64::MAX {
        let n = input.read(&mut scrap)?;
        if n == 0 {
            break;
        }
        serve_all(&mut card, &scrap[..n], &mut nobody, lines)?;
    }
    Ok(())
}

// Hands the scrap over to the card, call by call: each is given the bytes that the one before did not use. Of a frame a call uses all. Each reply and each line is
// written at once.
pub fn serve_all<W: Write, L: Write>(
    card: &mut Card,
    scrap: &[u8],
    replies: &mut W,
    lines: &mut L,
) -> io::Result<()>
    ensures calls { IfOk result (λ u. EndsAt card.old scrap.now card.new) }
    ensures whole { IfOk result (λ u. Handed card.old scrap.now card.new) }
    ensures stopped { OnErr result (Stopped card.old scrap.now card.new) }
{
    let mut reply = [0u8; ASCII_REPLY];
    let mut text = [0u8; LINE_MOST];
    let mut rest = scrap;
    while !rest.is_empty() {
        let turn = serve(card, rest, &mut reply, &mut text);
        write(replies, &reply[..turn.reply])?;
        write(lines, &text[..turn.line])?;
        rest = &rest[turn.used..];
    }
    Ok(())
}

// Writes the bytes at once.
fn write<W: Write>(to: &mut W, bytes: &[u8]) -> io::Result<()> {
    to.write_all(bytes)?;
    to.flush()
}
