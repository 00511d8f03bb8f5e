// The bytes that a message spells.
ghost use Rattle.std.specs.Prelude.{◌≡◌, length, take};
ghost use Rattle.base.specs.Buffers.{front};
ghost use Rattle.ascii.specs.Ascii.{bytes_in, unit_among};

// Puts the bytes that the pairs of the message in the first `n` bytes of `held` spell at the start of `out`, the LRC last, and tells how many there are. Other bytes held are read
// the same way, from the second on and up to the first pair that spells no byte.
#[tactic(auto, using(crate::proofs::Decoded::message_count, crate::proofs::Decoded::message_lent))]
pub fn message_bytes(held: &[u8; 512], n: usize, out: &mut [u8; 256]) -> usize
    ensures count { result ≡ length (bytes_in (take n held.now)) }
    ensures lent { out.new ≡ front (bytes_in (take n held.now)) out.old }
{
    // cut to 511 before anything else, so that the compiler knows that the bytes fit: else each is tested for room, 20 instructions a message
    let digits = &held[1..];
    hex_pairs::decode(&digits[..n.saturating_sub(1).min(511)], out)
}

// The data unit among a message's bytes, as a part of them: all but the address and the LRC. Of fewer than two bytes, an empty part.
#[tactic(auto, using(crate::proofs::Decoded::unit_none, crate::proofs::Decoded::unit_part))]
pub fn unit_among(bytes: &[u8]) -> &[u8]
    ensures { result.now ≡ unit_among bytes.now }
{
    match bytes {
        [_, unit @ .., _] => unit,
        _ => &bytes[..0],
    }
}
