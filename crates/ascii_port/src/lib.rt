// Modbus ASCII on the card's port: `receive` reads a scrap, serves the first message taken and replies to it. The card's parts are lent where they lie, as C lends them.
#![tactic(auto)]

ghost use Rattle.std.specs.Prelude.{◌≡◌, ◌≤◌, length};
ghost use Rattle.base.specs.Buffers.{front, ascii_least};
ghost use Rattle.pending.specs.Scanning.{scan_in};
ghost use Rattle.turn.specs.Turn.{turn_of};
ghost use Rattle.card.specs.State.{card_of};
ghost use Rattle.turn.specs.Turned.{turn_in};
ghost use Rattle.turn.specs.Stream.{taken};
ghost use Rattle.ascii_port.specs.Receive.{reply_text, answered_by, ascii_stream, ascii_received};

use base::ASCII_REPLY;
use card::Outcome;
use drive::Plant;
use identity::Identity;
use modbus::Answer;
use pending::Scanned;
use port::Numbers;
use turn::{Turned, after_message, nothing_taken, short_buffer};

// Reads bytes as Modbus ASCII, serves the first message taken, and puts its reply at the start of `reply`, which has 513 bytes at least.
// The caller hands the unused rest again first. The parts of the card are lent one by one, here and below, as C lends them (`card_receive_ascii_in`).
#[tactic(auto, using(crate::proofs::Laws::short_turn, crate::proofs::Laws::short_lent))]
pub fn receive(
    held: &mut [u8; 512],
    len: usize,
    port: &mut Numbers,
    plant: &mut Plant,
    identity: &Identity,
    bytes: &[u8],
    reply: &mut [u8],
) -> Turned
    ensures turn { turn_in held.new port.new plant.new identity.now result ≡ turn_of (ascii_received (card_of held.old len port.old plant.old identity.now) bytes.now (length reply.old)) }
    ensures lent { reply.new ≡ front (ascii_received (card_of held.old len port.old plant.old identity.now) bytes.now (length reply.old)).reply reply.old }
{
    if reply.len() < ASCII_REPLY {
        return short_buffer(len);
    }
    let scan = ascii_scan::scan(held, len, bytes);
    if !scan.taken {
        return nothing_taken(scan);
    }
    take(held, port, plant, identity, scan, reply)
}

// A message is taken: its bytes are read from the text that is held.
#[tactic(auto, using(crate::proofs::Laws::within, crate::proofs::Laws::decoded, crate::proofs::Laws::takes_turn, crate::proofs::Laws::takes_lent))]
fn take(
    held: &[u8; 512],
    port: &mut Numbers,
    plant: &mut Plant,
    identity: &Identity,
    scan: Scanned,
    reply: &mut [u8],
) -> Turned
    requires { ascii_least ≤ length reply.old }
    ensures turn { turn_in held.now port.new plant.new identity.now result ≡ turn_of (taken ascii_stream (card_of held.now scan.len port.old plant.old identity.now) (scan_in held.now scan)) }
    ensures lent { reply.new ≡ front (taken ascii_stream (card_of held.now scan.len port.old plant.old identity.now) (scan_in held.now scan)).reply reply.old }
{
    let mut message = [0u8; 256];
    let n = ascii_scan::message_bytes(held, scan.len, &mut message);
    answer(held, port, plant, identity, scan, &message[..n], reply)
}

// The data unit of a message's bytes is served and replied to.
#[tactic(auto, using(crate::proofs::Laws::answers_lent))]
fn answer(
    held: &[u8; 512],
    port: &mut Numbers,
    plant: &mut Plant,
    identity: &Identity,
    scan: Scanned,
    message: &[u8],
    reply: &mut [u8],
) -> Turned
    requires { ascii_least ≤ length reply.old }
    ensures turn { turn_in held.now port.new plant.new identity.now result ≡ turn_of (answered_by (card_of held.now scan.len port.old plant.old identity.now) (scan_in held.now scan) message.now) }
    ensures lent { reply.new ≡ front (answered_by (card_of held.now scan.len port.old plant.old identity.now) (scan_in held.now scan) message.now).reply reply.old }
{
    let address = modbus_words::byte_at(message, 0);
    let unit = ascii_scan::unit_among(message);
    let exchange = modbus_service::serve(plant, port, address, unit);
    after_message(port, exchange.answer);
    let len = put(address, exchange.reply, identity, reply);
    Turned {
        pending: 0,
        outcome: Outcome::Served(exchange.answer),
        used: scan.used,
        len,
    }
}

// Puts the reply's text, where there is a reply. The `put` of rtu_port differs in the writer alone: one function for both would take it as a closure, and
// say of the closure all that the two say of `put_ascii` and of `put_rtu`, so it is no plainer.
#[tactic(auto, using(base::proofs::Sets::front_none, modbus::proofs::Buffers::reply_all))]
fn put(address: u8, said: Option<Answer>, identity: &Identity, reply: &mut [u8]) -> usize
    requires { ascii_least ≤ length reply.old }
    ensures count { result ≡ length (reply_text identity.now address said) }
    ensures lent { reply.new ≡ front (reply_text identity.now address said) reply.old }
{
    match said {
        None => 0,
        Some(answer) => ascii::put_ascii(address, answer, identity, reply),
    }
}
