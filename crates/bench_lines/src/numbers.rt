// Numbers in decimal.
ghost use Rattle.std.specs.Prelude.{◌≡◌, ◌∷◌, ◌%◌, ◌≤◌, drop};
ghost use Rattle.std.proofs.lemmas.List.Edits.{sets};
ghost use Rattle.bench_lines.specs.Answer.{end_of, decimal_of, signed_of};

use crate::{put, put_all};

// A number in decimal.
pub fn unsigned(out: &mut [u8], at: usize, number: u64) -> usize
    ensures end { result ≡ end_of out.old at (decimal_of number) }
    ensures lent { out.new ≡ sets out.old at (decimal_of number) }
{
    let mut digits = [0u8; 20];
    let first = decimal(number, &mut digits);
    put_all(out, at, &digits[first..])
}

// Puts the digits of a number at the end of `digits`, and tells where the first of them stands. It is no `write!`: into a slice std's says nothing of
// the bytes written, which `decimal_of` promises, and a String is on the heap.
fn decimal(number: u64, digits: &mut [u8; 20]) -> usize
    ensures within { result ≤ 20 }
    ensures spelt { drop result digits.new ≡ decimal_of number }
{
    let mut rest = number;
    let mut at: usize = 20;
    while 10 <= rest {
        at -= 1;
        digits[at] = b'0' + (rest % 10) as u8;
        rest /= 10;
    }
    at -= 1;
    digits[at] = b'0' + rest as u8;
    at
}

// A space, and a number in decimal.
pub fn spaced(out: &mut [u8], at: usize, number: u64) -> usize
    ensures end { result ≡ end_of out.old at (0x20 ∷ decimal_of number) }
    ensures lent { out.new ≡ sets out.old at (0x20 ∷ decimal_of number) }
{
    let n = put(out, at, b' ');
    unsigned(out, n, number)
}

// A word in two's complement, one of `all` words.
fn signed(out: &mut [u8], at: usize, word: u64, all: u64) -> usize
    requires { word ≤ all }
    ensures end { result ≡ end_of out.old at (signed_of all word) }
    ensures lent { out.new ≡ sets out.old at (signed_of all word) }
{
    if word < all / 2 {
        return unsigned(out, at, word);
    }
    let n = put(out, at, b'-');
    unsigned(out, n, all - word)
}

// The low 16 bits of a word as a signed number. This and `signed32` are `signed` at their numbers of words: one function for both would take the number
// of bits, which no caller has, and could be asked for others.
pub fn signed16(out: &mut [u8], at: usize, word: u32) -> usize
    ensures end { result ≡ end_of out.old at (signed_of 0x10000 (word % 0x10000)) }
    ensures lent { out.new ≡ sets out.old at (signed_of 0x10000 (word % 0x10000)) }
{
    signed(out, at, u64::from(word % 65536), 65536)
}

// A word of 32 bits as a signed number.
pub fn signed32(out: &mut [u8], at: usize, word: u32) -> usize
    ensures end { result ≡ end_of out.old at (signed_of 0x100000000 word) }
    ensures lent { out.new ≡ sets out.old at (signed_of 0x100000000 word) }
{
    signed(out, at, u64::from(word), 4294967296)
}
