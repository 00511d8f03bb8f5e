// The answers of the bench as text: numbers in decimal, bytes in hex, and the state line.
// An answer gathers in a buffer of the caller's, and each routine hands back the place where it ends now. What does not fit is left out.
// `end` hands it to a writer. Buffer and place stand apart: docs/PROMISES.md names the routines, and their clause `end` is of both.
#![tactic(auto)]

mod numbers;
mod state;

ghost use Rattle.std.specs.Prelude.{◌≡◌, [], ◌∷◌};
ghost use Rattle.std.proofs.lemmas.List.Edits.{sets};
ghost use Rattle.bench_lines.specs.Answer.{end_of, pair_of, shown};

pub use numbers::{signed16, signed32, spaced, unsigned};
pub use state::state_line;
use std::io;
use std::io::Write;

// One character more. It is stored by its place, and not by `get_mut`, whose clause says nothing of the buffer's bytes after it.
#[tactic(auto, unfolding(crate::specs::Answer::end_of))]
pub fn put(out: &mut [u8], at: usize, character: u8) -> usize
    ensures end { result ≡ end_of out.old at (character ∷ []) }
    ensures lent { out.new ≡ sets out.old at (character ∷ []) }
{
    if at < out.len() {
        out[at] = character;
        return at + 1;
    }
    at
}

// Characters one after the other.
pub(crate) fn put_all(out: &mut [u8], at: usize, characters: &[u8]) -> usize
    ensures end { result ≡ end_of out.old at characters.now }
    ensures lent { out.new ≡ sets out.old at characters.now }
{
    let mut n = at;
    for character in characters {
        n = put(out, n, *character);
    }
    n
}

// A byte in hex.
pub fn byte(out: &mut [u8], at: usize, byte: u8) -> usize
    ensures end { result ≡ end_of out.old at (pair_of byte) }
    ensures lent { out.new ≡ sets out.old at (pair_of byte) }
{
    let n = put(out, at, hex_pairs::digit_of(byte / 16));
    put(out, n, hex_pairs::digit_of(byte % 16))
}

// Bytes in hex, `-` for none.
pub fn bytes(out: &mut [u8], at: usize, bytes: &[u8]) -> usize
    ensures end { result ≡ end_of out.old at (shown bytes.now) }
    ensures lent { out.new ≡ sets out.old at (shown bytes.now) }
{
    if bytes.is_empty() {
        return put(out, at, b'-');
    }
    let mut n = at;
    for next in bytes {
        n = byte(out, n, *next);
    }
    n
}

// The line's end: the answer is written to `to`, in one piece. Where that fails the error is the writer's own, and the buffer is as it is otherwise.
pub fn end<W: Write>(to: &mut W, out: &mut [u8], at: usize) -> io::Result<()>
    ensures lent { out.new ≡ sets out.old at (0x0A ∷ []) }
{
    let n = put(out, at, b'\n');
    if let Some(line) = out.get(..n) {
        to.write_all(line)?;
    }
    Ok(())
}
