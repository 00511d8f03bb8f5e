// Words and 32-bit values, as bytes of a data unit of Modbus: `byte_at`, `word_at` and `long_at` read them at a place. Every place can be read;
// bytes past the end count as 0.
#![tactic(auto)]

ghost use Rattle.std.specs.Prelude.{◌≡◌, get_or};
ghost use Rattle.modbus_words.specs.Words.{word_at, long_at};

// The byte at a place; past the end, 0.
pub fn byte_at(bytes: &[u8], at: usize) -> u8
    ensures { result ≡ get_or bytes.now at 0 }
{
    bytes.get(at).copied().unwrap_or(0)
}

// The word at a place, high byte first. Bytes past the end count as 0.
#[tactic(auto, unfolding(crate::specs::Words::word_at))]
pub fn word_at(bytes: &[u8], at: usize) -> u16
    ensures { result ≡ word_at bytes.now at }
{
    // every place can be read, the last there is too: only behind this test does the place of the next byte fit
    if bytes.len() <= at {
        return 0;
    }
    u16::from_be_bytes([byte_at(bytes, at), byte_at(bytes, at + 1)])
}

// The 32-bit value at a place, low word first. Bytes past the end count as 0, so the last register of a unit is its own word.
#[tactic(auto, unfolding(crate::specs::Words::long_at, crate::specs::Words::word_at))]
pub fn long_at(bytes: &[u8], at: usize) -> u32
    ensures { result ≡ long_at bytes.now at }
{
    // every place can be read, the last there is too: only behind this test does the place of the next byte fit
    if bytes.len() <= at {
        return 0;
    }
    u32::from(word_at(bytes, at)) + 65536 * u32::from(word_at(bytes, at + 2))
}
