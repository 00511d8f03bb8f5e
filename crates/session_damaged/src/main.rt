// The session program on a long, damaged stream. `tests/session/make.py` makes the files `stdin` and `stdout`, the second by a model of its own.
// It is `session` again, for a program's folder has one `stdin` and one `stdout`.
#![tactic(auto)]

use std::io;

fn main(rt: HostRuntime) -> io::Result<()> {
    session_loop::run(&mut rt.stdin(), &mut rt.stdout())
}
