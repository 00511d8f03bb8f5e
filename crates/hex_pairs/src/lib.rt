// Hex digits, and bytes as pairs of them: capitals and small letters are read, capitals are written.
// `digit_value`, `digit_of` and `capital_of` turn one character, `pair_value` two, `encode` and `decode` whole slices.
#![tactic(auto)]

ghost use Rattle.std.specs.Prelude.{◌≡◌, length, slice_set};
ghost use Rattle.std.proofs.lemmas.List.Edits.{sets};
ghost use Rattle.hex_pairs.specs.Hex.{digit_value, digit_of, capital_of, pair_value, hex_of, bytes_of};

// What `character` is worth: 0 to 15, or no hex digit. A character below `0`, `A` or `a` wraps to a number that is too high: a match on the ranges
// `b'0'..=b'9'`, `b'A'..=b'F'` and `b'a'..=b'f'` takes two instructions more for each digit, and
// docs/SPEED.md holds the card to what it takes.
#[tactic(auto, using(base::proofs::Tests::tests), unfolding(crate::specs::Hex::digit_value))]
pub fn digit_value(character: u8) -> Option<u8>
    ensures { result ≡ digit_value character }
{
    let numeral = character.wrapping_sub(b'0');
    let capital = character.wrapping_sub(b'A');
    let small = character.wrapping_sub(b'a');
    if numeral < 10 {
        Some(numeral)
    } else if capital < 6 {
        Some(capital + 10)
    } else if small < 6 {
        Some(small + 10)
    } else {
        None
    }
}

// The hex digits from 0 to 15.
const DIGITS: [u8; 16] = *b"0123456789ABCDEF";

// The digit of `number`, of which only the lowest four bits count.
#[tactic(auto, using(crate::proofs::Characters::digit_listed))]
pub fn digit_of(number: u8) -> u8
    ensures { result ≡ digit_of number }
{
    DIGITS[usize::from(number % 16)]
}

// `character` as it is written: a-f as A-F, every other as it is.
#[tactic(auto, using(base::proofs::Tests::tests), unfolding(crate::specs::Hex::capital_of))]
pub fn capital_of(character: u8) -> u8
    ensures { result ≡ capital_of character }
{
    match character {
        b'a'..=b'f' => character - 32,
        _ => character,
    }
}

// The byte that two characters spell, the high digit first, where both are hex digits.
#[tactic(auto, using(crate::proofs::RoundTrip::value_below), unfolding(crate::specs::Hex::pair_value))]
pub fn pair_value(high: u8, low: u8) -> Option<u8>
    ensures { result ≡ pair_value high low }
{
    let Some(h) = digit_value(high) else {
        return None;
    };
    let Some(l) = digit_value(low) else {
        return None;
    };
    Some(h * 16 + l)
}

// A store that leaves the slice alone where it lies past the end. It is no `get_mut`: the clause of that says nothing of the bytes that the slice ends
// with, and `encode` and `decode` promise each.
fn put(slice: &mut [u8], at: usize, byte: u8)
    ensures { slice.new ≡ slice_set slice.old at byte }
{
    if at < slice.len() {
        slice[at] = byte;
    }
}

// Puts each byte as two digits at the start of `text`. What does not fit is left out: a text of odd length may end in a high digit alone. `text` is written by place:
// of the pairs that `chunks_exact_mut` lends, a proof knows afterwards how many there were and not what they hold.
#[tactic(auto, using(crate::proofs::Laws::encode_again, crate::proofs::Laws::none_left, std::proofs::lemmas::Grind::common_steps))]
pub fn encode(bytes: &[u8], text: &mut [u8])
    ensures { text.new ≡ sets text.old 0 (hex_of bytes.now) }
{
    let whole = bytes.len().min(text.len() / 2);
    for (i, byte) in bytes[..whole].iter().enumerate() {
        text[2 * i] = digit_of(byte / 16);
        text[2 * i + 1] = digit_of(byte % 16);
    }
    if let Some(byte) = bytes.get(whole) {
        put(text, 2 * whole, digit_of(byte / 16));
    }
}

// Puts the bytes that the pairs of `text` spell, up to the first pair that spells none, at the start of `bytes`, as far as they fit.
// The result is how many there are, so all of `text` is hex pairs exactly when twice the result is its length.
pub fn decode(text: &[u8], bytes: &mut [u8]) -> usize
    ensures count { result ≡ length (bytes_of text.now) }
    ensures lent { bytes.new ≡ sets bytes.old 0 (bytes_of text.now) }
{
    let (pairs, _) = text.as_chunks::<2>();
    for (i, [high, low]) in pairs.iter().enumerate() {
        let Some(byte) = pair_value(*high, *low) else {
            return i;
        };
        put(bytes, i, byte);
    }
    pairs.len()
}
