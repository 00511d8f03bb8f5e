// The state line, from plain numbers.
ghost use Rattle.std.specs.Prelude.{◌≡◌};
ghost use Rattle.std.proofs.lemmas.List.Edits.{sets};
ghost use Rattle.bench_lines.specs.Answer.{end_of};
ghost use Rattle.bench_lines.specs.State.{is_short, is_long, column_of, columns_of, state_of};

use crate::{bytes, put, signed16, signed32, spaced, unsigned};

// Columns 2 to 23 are rows 301 to 322, of which 320 and 321 have 32 bits; FrqAct, column 27, has 16.
#[tactic(auto, using(base::proofs::Tests::tests), unfolding(crate::specs::State::is_short))]
fn is_short(k: usize) -> bool
    ensures { result ≡ is_short k }
{
    matches!(k, 2..=20 | 23 | 27)
}

// Rows 320 and 321 are columns 21 and 22, I-rms is column 28.
#[tactic(auto, using(base::proofs::Tests::tests), unfolding(crate::specs::State::is_long))]
fn is_long(k: usize) -> bool
    ensures { result ≡ is_long k }
{
    matches!(k, 21 | 22 | 28)
}

// The number of column `k`, counted from 1.
#[tactic(auto, using(base::proofs::Tests::tests), unfolding(crate::specs::State::column_of))]
fn column(out: &mut [u8], at: usize, k: usize, word: u32) -> usize
    ensures end { result ≡ end_of out.old at (column_of k word) }
    ensures lent { out.new ≡ sets out.old at (column_of k word) }
{
    if is_short(k) {
        return signed16(out, at, word);
    }
    if is_long(k) {
        return signed32(out, at, word);
    }
    unsigned(out, at, u64::from(word))
}

// The numbers of columns `from` and on, a space after each.
fn columns(out: &mut [u8], at: usize, from: u8, words: &[u32]) -> usize
    ensures end { result ≡ end_of out.old at (columns_of from words.now) }
    ensures lent { out.new ≡ sets out.old at (columns_of from words.now) }
{
    let mut n = at;
    for (k, word) in words.iter().enumerate() {
        n = column(out, n, usize::from(from) + k, *word);
        n = put(out, n, b' ');
    }
    n
}

// The state line: the protocol, rows 301 to 322, the columns after them, the pending bytes, and Drive Status.
pub fn state_line(
    out: &mut [u8],
    protocol: u32,
    rows: &[u32],
    others: &[u32],
    pending: &[u8],
    status: u32,
) -> usize
    ensures end { result ≡ end_of out.old 0 (state_of protocol rows.now others.now pending.now status) }
    ensures lent { out.new ≡ sets out.old 0 (state_of protocol rows.now others.now pending.now status) }
{
    let first = columns(out, 0, 1, &[protocol]);
    let second = columns(out, first, 2, rows);
    let third = columns(out, second, 24, others);
    let fourth = bytes(out, third, pending);
    spaced(out, fourth, u64::from(status))
}
