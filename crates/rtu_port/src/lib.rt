// Modbus RTU on the card's port: `receive` takes one frame a call, serves its data unit and replies to it. The card's parts are lent where they lie, as C lends them.
#![tactic(auto)]

ghost use Rattle.std.specs.Prelude.{◌≡◌, ◌≤◌, length};
ghost use Rattle.base.specs.Buffers.{front, rtu_least};
ghost use Rattle.turn.specs.Turn.{turn_of};
ghost use Rattle.card.specs.State.{card_of};
ghost use Rattle.turn.specs.Turned.{turn_in};
ghost use Rattle.rtu_port.specs.Receive.{frame_of, spoilt_in, taken, rtu_received};

use base::RTU_REPLY;
use card::Outcome;
use drive::Plant;
use identity::Identity;
use modbus::Answer;
use port::Numbers;
use turn::{Turned, after_message, short_buffer};

// Reads a frame, serves its data unit, and puts the reply at the start of `reply`, which has 256 bytes at least. All bytes are used.
// The parts of the card are lent one by one, here and below, as C lends them (`card_receive_rtu_in`).
#[tactic(auto, using(crate::proofs::Laws::short_turn, crate::proofs::Laws::short_lent, crate::proofs::Laws::spoils_turn, crate::proofs::Laws::spoils_lent, crate::proofs::Laws::holds_turn, crate::proofs::Laws::holds_lent))]
pub fn receive(
    held: &[u8; 512],
    len: usize,
    port: &mut Numbers,
    plant: &mut Plant,
    identity: &Identity,
    frame: &[u8],
    reply: &mut [u8],
) -> Turned
    ensures turn { turn_in held.now port.new plant.new identity.now result ≡ turn_of (rtu_received (card_of held.now len port.old plant.old identity.now) frame.now (length reply.old)) }
    ensures lent { reply.new ≡ front (rtu_received (card_of held.now len port.old plant.old identity.now) frame.now (length reply.old)).reply reply.old }
{
    if reply.len() < RTU_REPLY {
        return short_buffer(len);
    }
    if !rtu::frame_holds(frame) {
        return bad_frame(len, frame.len());
    }
    take(held, port, plant, identity, frame, reply)
}

// A frame whose length or CRC is wrong: nothing changes.
fn bad_frame(pending: usize, used: usize) -> Turned
    ensures { result ≡ spoilt_in pending used }
{
    Turned {
        pending,
        outcome: Outcome::BadFrame,
        used,
        len: 0,
    }
}

// A frame whose length and CRC are right: its data unit is served and replied to.
#[tactic(auto, using(crate::proofs::Laws::takes_lent))]
fn take(
    held: &[u8; 512],
    port: &mut Numbers,
    plant: &mut Plant,
    identity: &Identity,
    frame: &[u8],
    reply: &mut [u8],
) -> Turned
    requires { rtu_least ≤ length reply.old }
    ensures turn { turn_in held.now port.new plant.new identity.now result ≡ turn_of (taken (card_of held.now 0 port.old plant.old identity.now) frame.now) }
    ensures lent { reply.new ≡ front (taken (card_of held.now 0 port.old plant.old identity.now) frame.now).reply reply.old }
{
    let address = rtu::address_in(frame);
    let unit = rtu::unit_in(frame);
    let exchange = modbus_service::serve(plant, port, address, unit);
    after_message(port, exchange.answer);
    let len = put(address, exchange.reply, identity, reply);
    Turned {
        pending: 0,
        outcome: Outcome::Served(exchange.answer),
        used: frame.len(),
        len,
    }
}

// Puts the reply's frame, where there is a reply. The `put` of ascii_port differs in the writer alone, and says why they are two.
#[tactic(auto, using(base::proofs::Sets::front_none, modbus::proofs::Buffers::reply_all))]
fn put(address: u8, said: Option<Answer>, identity: &Identity, reply: &mut [u8]) -> usize
    requires { rtu_least ≤ length reply.old }
    ensures count { result ≡ length (frame_of identity.now address said) }
    ensures lent { reply.new ≡ front (frame_of identity.now address said) reply.old }
{
    match said {
        None => 0,
        Some(answer) => rtu::put_rtu(address, answer, identity, reply),
    }
}
