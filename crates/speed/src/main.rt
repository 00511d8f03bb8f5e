// The card's speed: `speed PROTOCOL ROUNDS` reads a workload on standard input, a message a line in capital hex, and runs the rounds over it in memory,
// from a fresh card on. It prints the protocol, the rounds, the bytes of a round, how many messages were taken, and a sum over the outcome, the used
// bytes and the reply's length of every call.
//
// The file `stdin` has two messages of NFO serial, case 2's ENQUIRY and a SELECT; `stdout` is what any card that follows document 01 comes to on them.
#![tactic(auto)]

mod rounds;
mod workload;

ghost use Rattle.std.specs.Prelude.{◌≤◌, length, IfOk};

use card::{Card, Protocol};
use identity::BLANK;
use rounds::{Tally, round};
use std::env::Env;
use std::io;
use std::io::{Read, Write};
use workload::{number_of, read_lines};

fn complain<W: Write>(to: &mut W) -> io::Result<()> {
    to.write_all(
        b"speed: usage: speed PROTOCOL ROUNDS < WORKLOAD; PROTOCOL is nfo, rtu or ascii, a line of WORKLOAD a message in capital hex\n",
    )
}

// Prints what the rounds came to.
fn print<W: Write>(
    out: &mut W,
    word: &[u8],
    rounds: u64,
    bytes: usize,
    tally: Tally,
) -> io::Result<()> {
    let Tally { sum, taken, .. } = tally;
    out.write_all(word)?;
    writeln!(
        out,
        " rounds {rounds} bytes/round {bytes} taken {taken} checksum {sum:08X}"
    )
}

// The rounds over a workload, from a fresh card on.
fn run(protocol: Protocol, rounds: u64, bytes: &[u8], frames: &[usize]) -> Tally {
    let mut card = Card::start(protocol, BLANK);
    let mut tally = Tally {
        pending: card.port.pending.len,
        sum: 0,
        taken: 0,
    };
    for _ in 0..rounds {
        tally = round(&mut card, tally, bytes, frames);
    }
    tally
}

// Reads until `text` is full or the input ends, and tells how many bytes there are. By hand: std's `read_to_end` puts what it reads on the heap, of which there is none.
fn read_full<R: Read>(input: &mut R, text: &mut [u8]) -> io::Result<usize>
    ensures { IfOk result (λ n. n ≤ length text.new) }
{
    let mut done = 0;
    while done < text.len() {
        match input.read(&mut text[done..])? {
            0 => break,
            n => done += n,
        }
    }
    Ok(done)
}

// Reads the workload and runs.
fn measure(rt: &HostRuntime, word: &[u8], protocol: Protocol, rounds: u64) -> io::Result<()> {
    let mut text = [0u8; 65536];
    let mut work = [0u8; 65536];
    let mut frames = [0usize; 4096];
    let got = read_full(&mut rt.stdin(), &mut text)?;
    let Some(total) = read_lines(&text[..got], &mut work, &mut frames) else {
        return complain(&mut rt.stderr());
    };
    let tally = run(protocol, rounds, &work[..total], &frames);
    print(&mut rt.stdout(), word, rounds, total, tally)
}

fn main(rt: HostRuntime) -> io::Result<()> {
    let mut word = [0u8; 4096];
    let mut number = [0u8; 4096];
    let n = rt.arg(1, &mut word).unwrap_or(0);
    let m = rt.arg(2, &mut number).unwrap_or(0);
    let word = &word[..n];
    match (protocols::protocol_of(word), number_of(&number[..m])) {
        (Some(protocol), Some(rounds)) => measure(&rt, word, protocol, rounds),
        _ => complain(&mut rt.stderr()),
    }
}
