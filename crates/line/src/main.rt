// A card on a serial device: `line PROTOCOL DEVICE`, where PROTOCOL is `nfo`, `rtu` or `ascii`. It reads the device to its end, writes each reply
// on it, and prints a line for each message taken, as `session` does. A read is a scrap of the stream; for Modbus RTU it is a frame, so the port
// is set up to end a read at silence. Before a scrap is served, the card is handed the tenths that have passed: it is seen by its messages alone,
// so that is early enough.
//
// Wrong arguments are told on standard error, and no device is opened then: the file `args` has a protocol that there is not.
#![tactic(auto)]

use card::{Card, Protocol};
use identity::Identity;
use std::env::FillError;
use std::fmt::InlineText;
use std::fs::OpenOptions;
use std::io::{Read, Write};
use std::rt::{Clock, Env, Files};
use std::{io, str};

// Who this card is, for a master that asks: the revision `Revision 02.03 PC`, the model `LineOnPC`, the serial number `0000000000000001`.
const IDENTITY: Identity = *b"Revision 02.03 PCLineOnPC0000000000000001";

// Tells how the program is called.
fn usage(rt: &impl Eprint) -> io::Result<()> {
    rt.eprintln("line: usage: line PROTOCOL DEVICE, PROTOCOL is nfo, rtu or ascii")
}

// Tells that the card cannot count time. It would not stop by itself then, so it is not run.
fn no_time(rt: &impl Eprint) -> io::Result<()> {
    rt.eprintln("line: the clock tells no time")
}

// Tells what failed, and why, in the system's words without their number.
fn fail(rt: &impl Eprint, what: &str, error: io::Error) -> io::Result<()> {
    let text = InlineText::<320>::of(error);
    let said = text.as_str();
    let why = said
        .split_once(" (os error ")
        .map_or(said, |(words, _)| words);
    eprintln!(rt; "{what}: {why}")
}

// The time that the clock tells now.
fn present(rt: &impl Clock) -> Option<u64> {
    let told = clock::monotonic(rt);
    clock::time_of(told.status, told.seconds, told.nanoseconds)
}

// A card by the protocol on the open device, from this time on, to the device's end. A read that fails is the end too: so a line tells that its other end hung up.
fn run<R: Clock + Print + Eprint, D: Read + Write>(
    rt: &R,
    protocol: Protocol,
    device: &mut D,
    start: u64,
) -> io::Result<()> {
    let mut card = Card::start(protocol, IDENTITY);
    let mut lines = io::writer(rt);
    let mut scrap = [0u8; 4096];
    let mut last = start;
    // no `loop`: one that may not end needs the handle Wait, which this repository has none of
    for _ in 0..u64::MAX {
        let n = device.read(&mut scrap).unwrap_or(0);
        if n == 0 {
            return Ok(());
        }
        let Some(now) = present(rt) else {
            return no_time(rt);
        };
        let passed = ticks::time_passed(last, now);
        ticks::hand_over(&mut card.port.numbers, &mut card.plant, passed.tenths);
        last = passed.last;
        session_loop::serve_all(&mut card, &scrap[..n], device, &mut lines)?;
    }
    Ok(())
}

// A card by the protocol on the device of this name.
fn serve<R: Clock + Files + Print + Eprint>(
    rt: &R,
    protocol: Protocol,
    device: &str,
) -> io::Result<()> {
    let Some(start) = present(rt) else {
        return no_time(rt);
    };
    match OpenOptions::new().read(true).write(true).open(rt, device) {
        Ok(mut port) => run(rt, protocol, &mut port, start),
        Err(error) => fail(rt, device, error),
    }
}

// Whether the program was called with an argument at this place.
fn has_argument(rt: &impl Env, place: usize) -> bool {
    let mut start = [0u8; 1];
    !matches!(&rt.arg(place, &mut start), Err(FillError::NotPresent))
}

fn main(rt: HostRuntime) -> io::Result<()> {
    let mut word = [0u8; 4096];
    let mut device = [0u8; 4096];
    if !has_argument(&rt, 2) || has_argument(&rt, 3) {
        return usage(&rt);
    }
    let n = rt.arg(1, &mut word).unwrap_or(0);
    let Some(protocol) = protocols::protocol_of(&word[..n]) else {
        return usage(&rt);
    };
    let Ok(length) = rt.arg(2, &mut device) else {
        return rt.eprintln("line: DEVICE: File name too long");
    };
    let Ok(name) = str::from_utf8(&device[..length]) else {
        return rt.eprintln("line: DEVICE: not UTF-8");
    };
    serve(&rt, protocol, name)
}
