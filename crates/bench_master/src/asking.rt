// The lines of more than three words. Each tells a master to write a request into a lent buffer, and the whole buffer is printed.
ghost use Rattle.std.specs.Prelude.{◌≡◌, IfOk};

use crate::print;
use master::Sent;
use master_request::Ask;
use std::io;
use std::io::Write;
use table::{ENumber, Register};

// `ADR N`, word `k` and the one after it. N is E, REG or FN.
fn head_at(line: &[u8], k: u8) -> Option<(u8, u16)> {
    let at = usize::from(k);
    let address = bench_words::between16(0, 255, bench_words::word(line, at))?;
    let n = bench_words::between16(0, 65535, bench_words::word(line, at + 1))?;
    Some((u8::try_from(address).ok()?, n))
}

// `enq B ADR E`
fn enquiry(line: &[u8], buffer: &mut [u8]) -> Option<Sent> {
    let (address, e) = head_at(line, 2)?;
    Some(master_nfo::enquiry(address, ENumber(e), buffer))
}

// `sel B ADR E VALUE`, VALUE from -32768 to 32767
fn select(line: &[u8], buffer: &mut [u8]) -> Option<Sent> {
    let (address, e) = head_at(line, 2)?;
    let value = bench_words::between16(32768, 32767, bench_words::word(line, 4))?;
    Some(master_nfo::select(address, ENumber(e), value, buffer))
}

// A request by P, which is word 1.
fn modbus(line: &[u8], address: u8, ask: Ask, registers: &[u8], buffer: &mut [u8]) -> Option<Sent> {
    match bench_words::word(line, 1) {
        b"rtu" => Some(master_rtu::write_request(address, ask, registers, buffer)),
        b"ascii" => Some(master_ascii::write_request(address, ask, registers, buffer)),
        _ => None,
    }
}

// `one P B ADR REG WORD`
fn one(line: &[u8], buffer: &mut [u8]) -> Option<Sent> {
    let (address, register) = head_at(line, 3)?;
    let word = bench_words::between16(0, 65535, bench_words::word(line, 5))?;
    let ask = Ask::One(Register(register), word);
    modbus(line, address, ask, b"", buffer)
}

// `many P B ADR REG HEX`, HEX of an even number of bytes
fn many(line: &[u8], bytes: &mut [u8], buffer: &mut [u8]) -> Option<Sent> {
    let (address, first) = head_at(line, 3)?;
    let n = bench_words::spelt(bench_words::word(line, 5), bytes)?;
    if n % 2 != 0 {
        return None;
    }
    let ask = Ask::Many(Register(first));
    modbus(line, address, ask, bench_words::first(bytes, n), buffer)
}

// `read P B ADR FN REG COUNT`, FN 3 or 4
fn read(line: &[u8], buffer: &mut [u8]) -> Option<Sent> {
    let (address, function) = head_at(line, 3)?;
    let first = bench_words::between16(0, 65535, bench_words::word(line, 5))?;
    let count = bench_words::between16(0, 65535, bench_words::word(line, 6))?;
    let ask = match function {
        3 => Ask::Holding(Register(first), count),
        4 => Ask::Input(Register(first), count),
        _ => return None,
    };
    modbus(line, address, ask, b"", buffer)
}

// Does what the line tells, by its number of words and its name.
fn request(line: &[u8], bytes: &mut [u8], buffer: &mut [u8]) -> Option<Sent> {
    match (bench_words::count(line), bench_words::word(line, 0)) {
        (4, b"enq") => enquiry(line, buffer),
        (5, b"sel") => select(line, buffer),
        (6, b"one") => one(line, buffer),
        (6, b"many") => many(line, bytes, buffer),
        (7, b"read") => read(line, buffer),
        _ => None,
    }
}

// `OUTCOME LEN BUFFER`, and where it ends. LEN is 0 where nothing was written.
fn answer(out: &mut [u8], sent: Sent, buffer: &[u8]) -> usize {
    let mut n = bench_lines::unsigned(out, 0, u64::from(master::number_of(sent)));
    n = bench_lines::spaced(out, n, sent.unwrap_or(0) as u64);
    n = bench_lines::put(out, n, b' ');
    bench_lines::bytes(out, n, buffer)
}

// Does what the line tells, with a lent buffer of the size asked, and prints the answer.
fn ask_in<W: Write>(to: &mut W, line: &[u8], buffer: &mut [u8]) -> io::Result<()> {
    let mut bytes = [0u8; 1350];
    match request(line, &mut bytes, buffer) {
        Some(sent) => print(to, |out| answer(out, sent, buffer)),
        None => unknown(to),
    }
}

// The answer to what is no command.
fn unknown<W: Write>(to: &mut W) -> io::Result<()> {
    to.write_all(b"?\n")
}

// The place of B: word 1, or word 2 where P stands before it.
fn place_of_size(line: &[u8]) -> usize {
    if bench_words::count(line) < 6 { 1 } else { 2 }
}

// Has a master write the request that the line tells, and prints the answer to `to`. B is 0 to 600; the line is no command where it is more.
// Where the printing fails, the error is the writer's own.
pub fn ask<W: Write>(to: &mut W, line: &[u8]) -> io::Result<()>
    ensures { IfOk result (λ u. u ≡ tt) }
{
    let mut buffer = [0xA5u8; 600];
    let size = bench_words::between(0, u32::MAX, bench_words::word(line, place_of_size(line)));
    match size {
        Some(size @ 0..=600) => ask_in(to, line, &mut buffer[..size as usize]),
        _ => unknown(to),
    }
}
