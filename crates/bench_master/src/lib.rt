// The commands of the bench for a master: `ask` has it write a request, `hear_nfo`, `hear_rtu` and `hear_ascii` read a reply.
// Each prints its answer to a writer of the caller's. No contract says what is printed; the texts and the master's routines have contracts of their own.
// Where the printing fails, the error is the writer's own.
#![tactic(auto)]

mod asking;
mod hearing;

ghost use Rattle.std.specs.Prelude.{◌≡◌, IfOk};

pub use asking::ask;
pub use hearing::{hear_ascii, hear_nfo, hear_rtu};
use std::io;
use std::io::Write;

// Prints the answer that `tell` puts into a buffer, and of which it tells where it ends.
fn print<W: Write, F: FnOnce(&mut [u8]) -> usize>(to: &mut W, tell: F) -> io::Result<()>
    requires { F.IsAlwaysCallable tell }
    ensures { IfOk result (λ u. u ≡ tt) }
{
    let mut out = [0u8; 2048];
    let n = tell(&mut out);
    bench_lines::end(to, &mut out, n)
}
