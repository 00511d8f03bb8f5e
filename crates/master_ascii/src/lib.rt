// The master's end of a Modbus ASCII line: `write_request` puts the message of what is asked, `read_reply` tells what a message answers.
#![tactic(auto)]

ghost use Rattle.std.specs.Prelude.{◌≡◌, length};
ghost use Rattle.base.specs.Buffers.{front};
ghost use Rattle.ascii.specs.Ascii.{ascii_of};
ghost use Rattle.master.specs.Sent.{sent_of, bytes_sent};
ghost use Rattle.master_request.specs.Ask.{sayable, request_unit};
ghost use Rattle.master_ascii.specs.Heard.{framed, ascii_heard};

use master::{Sent, Unsent};
use master_reply::{Heard, NO_REPLY, read_unit};
use master_request::{Ask, body_of};

// Puts the message of what is asked at the start of `out`: 13 where it cannot be said, then 10 where it does not fit. `registers` are the register bytes of
// a `Many`; the others do not look at them. Why it is none with `master_rtu`'s stands there.
pub fn write_request(address: u8, ask: Ask, registers: &[u8], out: &mut [u8]) -> Sent
    ensures sent { result ≡ sent_of (sayable address ask (length registers.now)) (ascii_of address (request_unit ask registers.now)) (length out.old) }
    ensures lent { out.new ≡ front (bytes_sent (sayable address ask (length registers.now)) (ascii_of address (request_unit ask registers.now)) (length out.old)) out.old }
{
    let Some(body) = body_of(address, ask, registers) else {
        return Err(Unsent::CannotBeSaid);
    };
    let end = body.size;
    let bytes = body.bytes;
    let size = ascii::put_text(&bytes[..end], out);
    if size == 0 {
        return Err(Unsent::ShortBuffer);
    }
    Ok(size)
}

// Whether a text is 9 to 513 characters, the first of them `:` and the last CR LF.
#[tactic(auto, unfolding(crate::specs::Heard::framed), using(base::proofs::Tests::tests))]
fn framed(text: &[u8]) -> bool
    ensures { result ≡ framed text.now }
{
    let n = text.len();
    (9..=513).contains(&n) && text[0] == b':' && text[n - 2] == 13 && text[n - 1] == 10
}

// What a text answers: one of the replies with its numbers, or that it is none; and the words that a read brought. One message fills the text.
pub fn read_reply(text: &[u8]) -> Heard
    ensures { result ≡ ascii_heard text.now }
{
    if !framed(text) {
        return NO_REPLY;
    }
    let mut bytes = [0u8; 255];
    let end = text.len() - 2;
    let count = hex_pairs::decode(&text[1..end], &mut bytes);
    if 2 * count + 3 != text.len() {
        return NO_REPLY;
    }
    if !checks::adds_to_zero(&bytes[0..count]) {
        return NO_REPLY;
    }
    let last = count - 1;
    read_unit(bytes[0], &bytes[1..last])
}
