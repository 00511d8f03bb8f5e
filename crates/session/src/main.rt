// The session program of document 01's case 9. The files `stdin` and `stdout` have its input, SELECT Accel 0093h and then the ENQUIRY of
// case 2, and its two lines.
#![tactic(auto)]

use std::io;

fn main(rt: HostRuntime) -> io::Result<()> {
    session_loop::run(&mut rt.stdin(), &mut rt.stdout())
}
