// Reads frames on standard input, a line each in hex, `-` for no bytes, and prints the CRC of each as four hex digits, the high
// one first. A line that is no frame, or has more than 1024 characters, is answered `?`.
//
// The file `stdin` has the example of MB, the frame 02 07 (Serial Line V1.02, Appendix B), and its first byte alone; the digits 1 to 9, whose
// CRC is the check value of CRC-16/MODBUS; a frame in either letters; no bytes; and three lines that are no frames.
#![tactic(auto)]

mod line;

use line::Line;
use std::io;
use std::io::Read;

fn main(rt: HostRuntime) -> io::Result<()> {
    let mut input = rt.stdin();
    let mut out = rt.stdout();
    let mut line = Line {
        text: [0; 1024],
        len: 0,
    };
    let mut scrap = [0u8; 4096];
    // no `loop`: one that may not end needs the handle Wait, which this repository has none of
    for _ in 0..u64::MAX {
        let n = input.read(&mut scrap)?;
        if n == 0 {
            break;
        }
        line.feed(&mut out, &scrap[..n])?;
    }
    if line.len > 0 {
        line.answer(&mut out)?;
    }
    Ok(())
}
