// Reading REPLY, ACK and NAK.
ghost use Rattle.std.specs.Prelude.{◌≡◌, [], ◌∷◌};
ghost use Rattle.nfo.specs.Shape.{fits};
ghost use Rattle.nfo.specs.Message.{ADR};
ghost use Rattle.master_nfo.specs.Replies.{reply_number, read_of};

use table::ENumber;

// What a reply says, with the address that it comes from.
#[derive(Clone, Copy)]
pub enum Reply {
    // 0: REPLY: the parameter has this word
    Told(u8, ENumber, u16),
    // 0: ACK
    Acknowledged(u8),
    // 0: NAK
    Refused(u8),
}

// Document 01's number: 14 is not a reply. `master_reply` has one of its own: each kind of reply has a definition of its number.
pub fn number_of(reply: Option<Reply>) -> u32
    ensures { result ≡ reply_number reply }
{
    match reply {
        Some(_) => 0,
        None => 14,
    }
}

// Reads a reply, which must fill `bytes` exactly. It is not matched with a request.
#[tactic(auto, using(crate::proofs::Tested::other_count))]
pub fn read_reply(bytes: &[u8]) -> Option<Reply>
    ensures { result ≡ read_of bytes.now }
{
    if let [adr, code] = bytes {
        return short_reply(*adr, *code);
    }
    let Ok(reply) = <&[u8; 14]>::try_from(bytes) else {
        return None;
    };
    long_reply(reply)
}

// ACK:  ADR 06
// NAK:  ADR 15
#[tactic(auto, unfolding(nfo::specs::Shape::whole, crate::specs::Replies::ack, crate::specs::Replies::nak, crate::specs::Replies::reply, crate::specs::Replies::replied, crate::specs::Replies::read_of))]
fn short_reply(adr: u8, code: u8) -> Option<Reply>
    ensures { result ≡ read_of (adr ∷ code ∷ []) }
{
    if !is_adr(adr) {
        return None;
    }
    match code {
        0x06 => Some(Reply::Acknowledged(adr - 32)),
        0x15 => Some(Reply::Refused(adr - 32)),
        _ => None,
    }
}

// place:  0   1  2       6 7  8    11 12 13
// REPLY:  ADR 02 p p p p p 3D v v v v 03 BCC
fn long_reply(reply: &[u8; 14]) -> Option<Reply>
    ensures { result ≡ read_of reply.now }
{
    let [adr, 0x02, b'E', p, q, r, s, b'=', v, w, x, y, 0x03, bcc] = *reply else {
        return None;
    };
    if !is_adr(adr) || bcc != checks::bcc(&reply[2..13]) {
        return None;
    }
    let Some(e) = nfo_parts::value_of([p, q, r, s]) else {
        return None;
    };
    let Some(word) = nfo_parts::value_of([v, w, x, y]) else {
        return None;
    };
    Some(Reply::Told(adr - 32, ENumber(e), word))
}

// 20h to 7Fh: the range of `nfo`'s text, too, where it is another kind of byte.
fn is_adr(b: u8) -> bool
    ensures { result ≡ fits ADR b }
{
    (0x20..=0x7F).contains(&b)
}
