// The replies that a master reads: what each of them says is printed.
// Where an answer ends stands beside its buffer, as `put` and the other public routines of `bench_lines` take it and hand it back (their clause `end`).
ghost use Rattle.std.specs.Prelude.{◌≡◌, IfOk};

use crate::print;
use master_reply::{Heard, Reply};
use std::io;
use std::io::Write;
use table::ENumber;

// ` LETTER ADR`, as what a reply says begins.
fn said(out: &mut [u8], len: usize, letter: u8, address: u8) -> usize {
    let mut n = bench_lines::put(out, len, b' ');
    n = bench_lines::put(out, n, letter);
    bench_lines::spaced(out, n, u64::from(address))
}

// ` LETTER ADR NUMBER NUMBER`
fn said_of(out: &mut [u8], len: usize, letter: u8, address: u8, first: u16, second: u16) -> usize {
    let mut n = said(out, len, letter, address);
    n = bench_lines::spaced(out, n, u64::from(first));
    bench_lines::spaced(out, n, u64::from(second))
}

// ` R ADR E VALUE`
fn value(out: &mut [u8], len: usize, address: u8, e: ENumber, word: u16) -> usize {
    let mut n = said(out, len, b'R', address);
    n = bench_lines::spaced(out, n, u64::from(e.0));
    n = bench_lines::put(out, n, b' ');
    bench_lines::signed16(out, n, u32::from(word))
}

// `nreply HEX`: the outcome, and what an NFO serial reply says.
fn nfo(out: &mut [u8], reply: Option<master_nfo::Reply>) -> usize {
    let n = bench_lines::unsigned(out, 0, u64::from(master_nfo::number_of(reply)));
    match reply {
        Some(master_nfo::Reply::Told(address, e, word)) => value(out, n, address, e, word),
        Some(master_nfo::Reply::Acknowledged(address)) => said(out, n, b'A', address),
        Some(master_nfo::Reply::Refused(address)) => said(out, n, b'N', address),
        None => n,
    }
}

// The first `count` registers in hex, of each the high byte first.
fn registers(out: &mut [u8], len: usize, words: &[u16], count: usize) -> usize {
    let mut n = len;
    for word in words.iter().take(count) {
        for byte in word.to_be_bytes() {
            n = bench_lines::byte(out, n, byte);
        }
    }
    n
}

// ` D ADR FN HEX`
fn data(
    out: &mut [u8],
    len: usize,
    address: u8,
    function: u8,
    words: &[u16],
    count: usize,
) -> usize {
    let mut n = said(out, len, b'D', address);
    n = bench_lines::spaced(out, n, u64::from(function));
    n = bench_lines::put(out, n, b' ');
    registers(out, n, words, count)
}

// `mreply P HEX`: the outcome, and what a Modbus reply says.
fn modbus(out: &mut [u8], heard: Heard) -> usize {
    let Heard { words, reply } = heard;
    let n = bench_lines::unsigned(out, 0, u64::from(master_reply::number_of(reply)));
    match reply {
        Some(Reply::Data(address, function, count)) => data(
            out, n, address, function, &words, count,
        ),
        Some(Reply::One(address, register, word)) => said_of(
            out, n, b'S', address, register.0, word,
        ),
        Some(Reply::Many(address, first, count)) => said_of(out, n, b'M', address, first.0, count),
        Some(Reply::Exception(address, function, code)) => {
            said_of(out, n, b'X', address, u16::from(function), u16::from(code))
        }
        None => n,
    }
}

// Reads a reply of NFO serial, and prints what it says to `to`.
pub fn hear_nfo<W: Write>(to: &mut W, reply: &[u8]) -> io::Result<()>
    ensures { IfOk result (λ u. u ≡ tt) }
{
    print(to, |out| nfo(out, master_nfo::read_reply(reply)))
}

// Reads a reply of Modbus RTU, and prints what it says to `to`. One for each protocol: docs/PROMISES.md names them, and each is a line over its reader.
pub fn hear_rtu<W: Write>(to: &mut W, reply: &[u8]) -> io::Result<()>
    ensures { IfOk result (λ u. u ≡ tt) }
{
    print(to, |out| modbus(out, master_rtu::read_reply(reply)))
}

// Reads a reply of Modbus ASCII, and prints what it says to `to`.
pub fn hear_ascii<W: Write>(to: &mut W, reply: &[u8]) -> io::Result<()>
    ensures { IfOk result (λ u. u ≡ tt) }
{
    print(to, |out| modbus(out, master_ascii::read_reply(reply)))
}
