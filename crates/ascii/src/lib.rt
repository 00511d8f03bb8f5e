// The message of Modbus ASCII: as a format of the left-to-right reading (`specs/Ascii`), and written.
// `put_text` writes the message of some bytes, `put_ascii` the reply of an address and an answer.
#![tactic(auto)]

ghost use Rattle.std.specs.Prelude.{◌≡◌, ◌*◌, ◌≤◌, length};
ghost use Rattle.std.proofs.lemmas.List.Edits.{sets};
ghost use Rattle.base.specs.Buffers.{front, fitting, ascii_least};
ghost use Rattle.hex_pairs.specs.Hex.{hex_of};
ghost use Rattle.checks.specs.Lrc.{lrc_of};
ghost use Rattle.modbus.specs.Answer.{unit_of};
ghost use Rattle.modbus.specs.Reply.{reply_in};
ghost use Rattle.ascii.specs.Ascii.{text_of, with_lrc, ascii_of};

use base::ASCII_REPLY;
use identity::Identity;
use modbus::{Answer, put_body};

// Puts each byte as two digits at the start of `text`, which has room for them, and tells their LRC. `text` is written by place: of the pairs that
// `chunks_exact_mut` lends, a proof knows afterwards how many there were and not what they hold.
fn put_pairs(bytes: &[u8], text: &mut [u8]) -> u8
    requires { 2 * length bytes.now ≤ length text.old }
    ensures lrc { result ≡ lrc_of bytes.now }
    ensures lent { text.new ≡ sets text.old 0 (hex_of bytes.now) }
{
    let mut sum: u8 = 0;
    for (i, &byte) in bytes.iter().enumerate() {
        text[2 * i] = hex_pairs::digit_of(byte / 16);
        text[2 * i + 1] = hex_pairs::digit_of(byte % 16);
        sum = sum.wrapping_add(byte);
    }
    checks::lrc(sum)
}

// Puts the message of `bytes`, with their LRC behind them, at the start of `text` and tells its length. A text that is too short is left as it is, and
// the length is 0.
//
// message:  `:`  the bytes' pairs  the LRC's pair  CR LF
// place:    0    1                 end             end + 2
//
// The last four are stored one by one: copied from an array they cost 9 instructions a message more.
pub fn put_text(bytes: &[u8], text: &mut [u8]) -> usize
    ensures count { result ≡ length (fitting (text_of (with_lrc bytes.now)) (length text.old)) }
    ensures lent { text.new ≡ front (fitting (text_of (with_lrc bytes.now)) (length text.old)) text.old }
{
    if (text.len() + 1) / 2 < bytes.len() + 3 {
        return 0;
    }
    text[0] = b':';
    let lrc = put_pairs(bytes, &mut text[1..]);
    let end = 2 * bytes.len() + 1;
    text[end] = hex_pairs::digit_of(lrc / 16);
    text[end + 1] = hex_pairs::digit_of(lrc % 16);
    text[end + 2] = b'\r';
    text[end + 3] = b'\n';
    end + 4
}

// Puts the reply's message at the start of `reply` and tells its length. A buffer under 513 bytes is left as it is, and the length is 0.
pub fn put_ascii(address: u8, answer: Answer, identity: &Identity, reply: &mut [u8]) -> usize
    ensures count { result ≡ length (reply_in ascii_least (length reply.old) (ascii_of address (unit_of identity.now answer))) }
    ensures lent { reply.new ≡ front (reply_in ascii_least (length reply.old) (ascii_of address (unit_of identity.now answer))) reply.old }
{
    if reply.len() < ASCII_REPLY {
        return 0;
    }
    let mut bytes = [0u8; 80];
    let end = put_body(address, answer, identity, &mut bytes);
    put_text(&bytes[..end], reply)
}
