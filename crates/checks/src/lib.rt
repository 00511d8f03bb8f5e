// The three checks of the line: BCC of NFO serial, LRC of Modbus ASCII, CRC-16 of Modbus RTU.
// `bcc`, `lrc` and `crc` make them; `adds_to_zero` and `crc_holds` test them.
#![tactic(auto)]

ghost use Rattle.std.specs.Prelude.{◌≡◌};
ghost use Rattle.checks.specs.Bcc.{bcc_of};
ghost use Rattle.checks.specs.Lrc.{sum_of, adds_to_zero, lrc_after};
ghost use Rattle.checks.specs.Crc.{crc_bit, crc_byte, crc_of, crc_holds};

// The exclusive-or of all bytes.
#[tactic(auto, unfolding(crate::specs::Bcc::bcc_of))]
pub fn bcc(bytes: &[u8]) -> u8
    ensures { result ≡ bcc_of bytes.now }
{
    bytes.iter().fold(0, |x, byte| x ^ byte)
}

// The bytes added modulo 256.
#[tactic(auto, unfolding(crate::specs::Lrc::sum_of))]
fn sum(bytes: &[u8]) -> u8
    ensures { result ≡ sum_of bytes.now }
{
    bytes
        .iter()
        .fold(0, |sum: u8, byte| sum.wrapping_add(*byte))
}

// The LRC of bytes that add to `sum` modulo 256: the byte that, put after them, makes all add to 0.
pub fn lrc(sum: u8) -> u8
    ensures { result ≡ lrc_after sum }
{
    sum.wrapping_neg()
}

// Whether all bytes add to 0 modulo 256.
#[tactic(auto, unfolding(crate::specs::Lrc::adds_to_zero))]
pub fn adds_to_zero(bytes: &[u8]) -> bool
    ensures { result ≡ adds_to_zero bytes.now }
{
    sum(bytes) == 0
}

// One step of the CRC: the low bit is masked out, the rest shifted right by one, and A001h exclusive-ored in if the bit was 1.
#[tactic(auto, using(base::proofs::Tests::tests), unfolding(crate::specs::Crc::crc_bit))]
pub fn crc_bit(x: u16) -> u16
    ensures { result ≡ crc_bit x }
{
    if x & 1 == 1 {
        (x >> 1) ^ 0xA001
    } else {
        x >> 1
    }
}

// One byte of the CRC: it is exclusive-ored in, then eight steps. A `for` and no fold: of a fold over a range the proof was left open.
#[tactic(auto, using(crate::proofs::Steps::step_left), unfolding(crate::specs::Crc::crc_byte))]
pub fn crc_byte(x: u16, byte: u8) -> u16
    ensures { result ≡ crc_byte x byte }
{
    let mut y = x ^ u16::from(byte);
    for _step in 0..8u8 {
        y = crc_bit(y);
    }
    y
}

// The CRC of the bytes.
#[tactic(auto, unfolding(crate::specs::Crc::crc_of))]
pub fn crc(bytes: &[u8]) -> u16
    ensures { result ≡ crc_of bytes.now }
{
    bytes.iter().fold(0xFFFF, |x, byte| crc_byte(x, *byte))
}

// Whether the last two bytes are the CRC of those before, low byte first. Fewer than two bytes never are.
#[tactic(auto, using(crate::proofs::Steps::holds_short, crate::proofs::Steps::holds_long))]
pub fn crc_holds(frame: &[u8]) -> bool
    ensures { result ≡ crc_holds frame.now }
{
    let Some((body, [low, high])) = frame.split_last_chunk::<2>() else {
        return false;
    };
    crc(body) == u16::from_le_bytes([*low, *high])
}
