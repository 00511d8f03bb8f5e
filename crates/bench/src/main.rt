// The bench: puts a card, and a master, on the desk. It reads commands on standard input, one a line, and prints their answers; docs/BENCH.md has the language.
#![tactic(auto)]

mod command;
mod desk;
mod lines;
mod state;

use card::{Card, Protocol};
use identity::BLANK;
use lines::{Line, Reader};
use std::io;

fn main(rt: HostRuntime) -> io::Result<()> {
    let mut input = rt.stdin();
    let mut to = rt.stdout();
    let mut text = [0u8; 2701];
    let mut reader = Reader::new();
    let mut card = Card::start(Protocol::Nfo, BLANK);
    // no `loop`: one that may not end needs the handle Wait, which this repository has none of
    for _ in 0..u64::MAX {
        match reader.next(&mut input, &mut text)? {
            Line::Whole(line) => desk::answer(&mut to, &mut card, line)?,
            Line::Last(line) => return desk::answer(&mut to, &mut card, line),
        }
    }
    Ok(())
}
