// Each command is done on the card of the bench or by its master, and its answer printed to `to`.
// Where an answer ends stands beside its buffer, as `put` and the other public routines of `bench_lines` take it and hand it back (their clause `end`).
use crate::command::{Command, Event};
use crate::{command, state};
use card::{After, Card, Outcome, Protocol};
use drive::Measured;
use identity::BLANK;
use std::io;
use std::io::Write;

// The answer to what is no command.
fn unknown<W: Write>(to: &mut W) -> io::Result<()> {
    to.write_all(b"?\n")
}

// `OUTCOME`
fn outcome<W: Write>(to: &mut W, number: u32) -> io::Result<()> {
    let mut out = [0u8; 2048];
    let n = bench_lines::unsigned(&mut out, 0, u64::from(number));
    bench_lines::end(to, &mut out, n)
}

// `OUTCOME REPLY`
fn reply_line<W: Write>(to: &mut W, number: u32, reply: &[u8]) -> io::Result<()> {
    let mut out = [0u8; 2048];
    let n = bench_lines::unsigned(&mut out, 0, u64::from(number));
    let m = bench_lines::put(&mut out, n, b' ');
    let l = bench_lines::bytes(&mut out, m, reply);
    bench_lines::end(to, &mut out, l)
}

// One call of `bytes HEX`, with its answer where a message was taken. Tells how many bytes were used.
fn give<W: Write>(to: &mut W, card: &mut Card, scrap: &[u8]) -> io::Result<usize> {
    let mut buffer = [0u8; 600];
    let turn = receive::receive_on(card, scrap, &mut buffer);
    if !matches!(turn.outcome, Outcome::NothingTaken) {
        reply_line(to, turn.outcome.number(), &buffer[..turn.len])?;
    }
    Ok(turn.used)
}

// `bytes HEX`: a call with the whole scrap, then with the unused rest, until no byte is left. One that used no byte would be the last.
fn bytes<W: Write>(to: &mut W, card: &mut Card, scrap: &[u8]) -> io::Result<()> {
    let mut rest = scrap;
    loop {
        let used = give(to, card, rest)?;
        if used == 0 || rest.len() <= used {
            return Ok(());
        }
        rest = &rest[used..];
    }
}

// `OUTCOME USED LEN BUFFER`
fn call_line<W: Write>(
    to: &mut W,
    number: u32,
    used: usize,
    len: usize,
    buffer: &[u8],
) -> io::Result<()> {
    let mut out = [0u8; 2048];
    let mut n = bench_lines::unsigned(&mut out, 0, u64::from(number));
    n = bench_lines::spaced(&mut out, n, used as u64);
    n = bench_lines::spaced(&mut out, n, len as u64);
    n = bench_lines::put(&mut out, n, b' ');
    n = bench_lines::bytes(&mut out, n, buffer);
    bench_lines::end(to, &mut out, n)
}

// `call B HEX`: one call with a buffer of the size asked. B is 0 to 600; the line is no command where it is more.
fn call<W: Write>(to: &mut W, card: &mut Card, size: usize, scrap: &[u8]) -> io::Result<()> {
    let mut buffer = [0xA5u8; 600];
    let Some(lent) = buffer.get_mut(..size) else {
        return unknown(to);
    };
    let turn = receive::receive_on(card, scrap, lent);
    call_line(to, turn.outcome.number(), turn.used, turn.len, lent)
}

// `regdata HEX`: `OFFSET HEX`, or `-`. Behind the register data of a frame there is its CRC alone.
fn register_data<W: Write>(to: &mut W, frame: &[u8]) -> io::Result<()> {
    let mut out = [0u8; 2048];
    let data = rtu::register_data(frame);
    let n = match frame.len().checked_sub(data.len() + 2) {
        Some(offset) if !data.is_empty() => {
            let n = bench_lines::unsigned(&mut out, 0, offset as u64);
            let n = bench_lines::put(&mut out, n, b' ');
            bench_lines::bytes(&mut out, n, data)
        }
        _ => bench_lines::put(&mut out, 0, b'-'),
    };
    bench_lines::end(to, &mut out, n)
}

// What the host tells the card.
fn tell(card: Card, event: Event) -> After {
    match event {
        Event::Tick(n) => card.tick(n),
        Event::Raise(n) => card.raise_fault(n),
        Event::End(n) => card.end_cause(n),
        Event::Din1(active) => card.din1(active),
        Event::Parity => card.parity_fault(),
        Event::Frq(word) => card.measure(Measured::Frq(word)),
        Event::Irms(word) => card.measure(Measured::Rms(word)),
        Event::OpTime(word) => card.measure(Measured::Optime(word)),
    }
}

// `tick N` and the other events: the outcome alone
fn host<W: Write>(to: &mut W, card: &mut Card, event: Event) -> io::Result<()> {
    let after = tell(*card, event);
    *card = after.card;
    outcome(to, after.outcome.number())
}

// `nreply HEX`, `mreply P HEX`: a master reads the reply.
fn hear<W: Write>(to: &mut W, protocol: Protocol, reply: &[u8]) -> io::Result<()> {
    match protocol {
        Protocol::Nfo => bench_master::hear_nfo(to, reply),
        Protocol::Rtu => bench_master::hear_rtu(to, reply),
        Protocol::Ascii => bench_master::hear_ascii(to, reply),
    }
}

// Does a command.
fn perform<W: Write>(to: &mut W, card: &mut Card, command: Command<'_>) -> io::Result<()> {
    match command {
        Command::Start(protocol) => {
            *card = Card::start(protocol, BLANK);
            outcome(to, 0)
        }
        Command::StartAs(protocol, identity) => {
            *card = Card::start(protocol, identity);
            outcome(to, 0)
        }
        Command::Restart => {
            *card = card.restart();
            outcome(to, 0)
        }
        Command::Bytes(scrap) => bytes(to, card, scrap),
        Command::Call(size, scrap) => call(to, card, size, scrap),
        Command::Host(event) => host(to, card, event),
        Command::State => state::print(to, card),
        Command::RegisterData(frame) => register_data(to, frame),
        Command::Hear(protocol, reply) => hear(to, protocol, reply),
    }
}

// Whether a line is for the master: it has four words or more, and does not start a card.
fn asks_master(line: &[u8]) -> bool {
    3 < bench_words::count(line) && bench_words::word(line, 0) != b"start".as_slice()
}

// Does the command of a line, and prints its answer.
fn obey<W: Write>(to: &mut W, card: &mut Card, line: &[u8]) -> io::Result<()> {
    let mut buffer = [0u8; 1350];
    if asks_master(line) {
        return bench_master::ask(to, line);
    }
    match command::parse(line, &mut buffer) {
        Some(command) => perform(to, card, command),
        None => unknown(to),
    }
}

// Answers a line. An empty one is skipped, and one of more than 2700 characters is no command.
pub(crate) fn answer<W: Write>(to: &mut W, card: &mut Card, line: &[u8]) -> io::Result<()> {
    match line.len() {
        0 => Ok(()),
        1..=2700 => obey(to, card, line),
        _ => unknown(to),
    }
}
