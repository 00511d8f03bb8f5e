// Numbers as words of a command: decimal digits, with `-` in front if negative. Zeros in front change nothing, so `007` is 7, and `-0` is 0.
// A `+` is no part of a number.
ghost use Rattle.std.specs.Prelude.{◌≡◌, ◌+◌, ◌*◌, ◌≤◌, min};
ghost use Rattle.bench_words.specs.Numbers.{size_of, plain, number_of, short_of};

// One digit more.
fn grown(size: u64, digit: u8) -> u64
    requires { size ≤ 0x100000000 }
    ensures { result ≡ min (size * 10 + digit) 0x100000000 }
{
    (size * 10 + u64::from(digit)).min(0x100000000)
}

// The size of decimal digits, one at least. All sizes from 2^32 on are too large for every command, and are not told apart. It is no `parse`: that takes a `+`, and refuses
// the sizes that this holds at 2^32.
#[tactic(auto, using(crate::proofs::Sizes::sizes))]
fn size_of(characters: &[u8]) -> Option<u64>
    ensures { result ≡ size_of characters.now }
{
    if characters.is_empty() {
        return None;
    }
    let mut size = 0;
    for character in characters {
        let b'0'..=b'9' = *character else {
            return None;
        };
        size = grown(size, *character - b'0');
    }
    Some(size)
}

// The same, where it is within `limit`.
#[tactic(auto, using(base::proofs::Tests::tests))]
fn size_within(limit: u32, characters: &[u8]) -> Option<u32>
    ensures { result ≡ plain limit (size_of characters.now) }
{
    let size = size_of(characters)?;
    if size <= u64::from(limit) {
        Some(size as u32)
    } else {
        None
    }
}

// The word as a number from -`below` to `most`, a negative one in two's complement.
#[tactic(auto, using(crate::proofs::Sizes::signs))]
pub fn between(below: u32, most: u32, word: &[u8]) -> Option<u32>
    ensures { result ≡ number_of below most word.now }
{
    match word {
        [b'-', digits @ ..] => size_within(below, digits).map(|size| size.wrapping_neg()),
        _ => size_within(most, word),
    }
}

// The same, for limits of 16 bits: the low half of the word. It calls `between`, so they are no twins; and no `TryFrom` cuts a word of two's complement.
pub fn between16(below: u32, most: u32, word: &[u8]) -> Option<u16>
    ensures { result ≡ short_of (number_of below most word.now) }
{
    between(below, most, word).map(|n| (n % 65536) as u16)
}
