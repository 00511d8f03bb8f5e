// The state line of a card. No other file of the bench looks inside one.
use card::Card;
use drive::{CAUSES, DIN1, FLAGS, STATION};
use port::{PROTOCOL, SIOERR, SUM};
use std::io;
use std::io::Write;
use table::names::*;

// `state`: prints the line.
pub(crate) fn print<W: Write>(to: &mut W, card: &Card) -> io::Result<()> {
    let mut out = [0u8; 2048];
    let port = &card.port.numbers;
    let plant = &card.plant;
    let others = [
        plant[MODE],
        plant[SCMD],
        port[SIOERR],
        plant[FRQ_ACT],
        plant[I_RMS],
        plant[OP_TIME],
        plant[DIN1],
        plant[CAUSES],
        plant[FLAGS],
        port[SUM],
        plant[STATION],
    ];
    let pending = &card.port.pending;
    let n = bench_lines::state_line(
        &mut out,
        port[PROTOCOL],
        &plant[P_NOM..MODE],
        &others,
        bench_words::first(&pending.bytes, pending.len),
        plant[DRIVE_STATUS],
    );
    bench_lines::end(to, &mut out, n)
}
