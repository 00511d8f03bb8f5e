// Bytes from the line, by the port's protocol: `receive` is the call that every line makes of the card. `receive_on` is the same call of a card where it lies,
// and `receive_in` that of a card whose parts are lent where they lie.
#![tactic(auto)]

ghost use Rattle.std.specs.Prelude.{◌≡◌, ◌<◌, ◌≤◌, length};
ghost use Rattle.base.specs.Buffers.{front};
ghost use Rattle.card.specs.State.{card_of};
ghost use Rattle.turn.specs.Turn.{turn_of};
ghost use Rattle.turn.specs.Turned.{turn_in};
ghost use Rattle.receive.specs.Calls.{LongEnough};
ghost use Rattle.receive.specs.Receive.{received, turn_on};

use card::Card;
use drive::Plant;
use identity::Identity;
use port::{Numbers, PROTOCOL};
use turn::{Turn, Turned};

// Reads bytes by the port's protocol, serves the first message taken, and puts its reply at the start of `reply`, which has 19 bytes at least for NFO
// serial, 256 for Modbus RTU and 513 for Modbus ASCII. Of NFO serial and Modbus ASCII the bytes are a scrap of a stream, and the caller hands the unused
// rest again first; of Modbus RTU they are a frame.
pub fn receive(card: Card, bytes: &[u8], reply: &mut [u8]) -> Turn
    ensures turn { result ≡ turn_of (received card bytes.now (length reply.old)) }
    ensures lent { reply.new ≡ front (received card bytes.now (length reply.old)).reply reply.old }
{
    let mut card = card;
    let turned = receive_on(&mut card, bytes, reply);
    Turn {
        card,
        outcome: turned.outcome,
        used: turned.used,
        len: turned.len,
    }
}

// The same call of a card where it lies. The bytes used are there, and one at least is used where there is one and the buffer is long enough; no reply has more
// than 151 bytes.
pub fn receive_on(card: &mut Card, bytes: &[u8], reply: &mut [u8]) -> Turned
    ensures turn { turn_on card.new result ≡ turn_of (received card.old bytes.now (length reply.old)) }
    ensures lent { reply.new ≡ front (received card.old bytes.now (length reply.old)).reply reply.old }
    ensures pending { result.pending ≡ card.new.port.pending.len }
    ensures within { result.used ≤ length bytes.now }
    ensures onward { LongEnough card.old (length reply.old) → 0 < length bytes.now → 0 < result.used }
    ensures short { result.len ≤ 151 }
{
    let len = card.port.pending.len;
    let turned = receive_in(
        &mut card.port.pending.bytes,
        len,
        &mut card.port.numbers,
        &mut card.plant,
        &card.identity,
        bytes,
        reply,
    );
    card.port.pending.len = turned.pending;
    turned
}

// The same call of a card whose bytes pending are the first `len` of `held`, whose port's numbers are in `port`, whose plant is in `plant` and whose
// identity is in `identity`. The protocol's number is matched as it stands in the
// port: by `Protocol::from` it took 6 instructions a call more.
#[tactic(auto, unfolding(crate::specs::Receive::received))]
pub fn receive_in(
    held: &mut [u8; 512],
    len: usize,
    port: &mut Numbers,
    plant: &mut Plant,
    identity: &Identity,
    bytes: &[u8],
    reply: &mut [u8],
) -> Turned
    ensures turn { turn_in held.new port.new plant.new identity.now result ≡ turn_of (received (card_of held.old len port.old plant.old identity.now) bytes.now (length reply.old)) }
    ensures lent { reply.new ≡ front (received (card_of held.old len port.old plant.old identity.now) bytes.now (length reply.old)).reply reply.old }
{
    match port[PROTOCOL] {
        1 => rtu_port::receive(held, len, port, plant, identity, bytes, reply),
        2 => ascii_port::receive(held, len, port, plant, identity, bytes, reply),
        _ => nfo_port::receive(held, len, port, plant, bytes, reply),
    }
}
