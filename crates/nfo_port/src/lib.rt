// NFO serial on the card's port: `receive` reads a scrap, serves the first message taken and replies to it. The card's parts are lent where they lie, as C lends them;
// its identity is none of them, for no message of NFO serial asks for it.
#![tactic(auto)]

ghost use Rattle.std.specs.Prelude.{◌≡◌, ◌≤◌, length};
ghost use Rattle.base.specs.Buffers.{front, nfo_least};
ghost use Rattle.identity.specs.Identity.{Identity};
ghost use Rattle.pending.specs.Scanning.{scan_in};
ghost use Rattle.turn.specs.Turn.{turn_of};
ghost use Rattle.card.specs.State.{card_of};
ghost use Rattle.turn.specs.Turned.{turn_in};
ghost use Rattle.turn.specs.Stream.{taken};
ghost use Rattle.nfo_port.specs.Receive.{nfo_stream, nfo_received};

use base::NFO_REPLY;
use card::Outcome;
use drive::Plant;
use pending::Scanned;
use port::Numbers;
use turn::{Turned, after_message, nothing_taken, short_buffer};

// Reads bytes as NFO serial, serves the first message taken, and puts its reply at the start of `reply`, which has 19 bytes at least.
// The caller hands the unused rest again first.
#[tactic(auto, using(base::proofs::Sets::front_none), unfolding(crate::specs::Receive::nfo_received, turn::specs::Turn::waiting))]
pub fn receive(
    held: &mut [u8; 512],
    len: usize,
    port: &mut Numbers,
    plant: &mut Plant,
    bytes: &[u8],
    reply: &mut [u8],
) -> Turned
    ensures turn { (i : Identity) → turn_in held.new port.new plant.new i result ≡ turn_of (nfo_received (card_of held.old len port.old plant.old i) bytes.now (length reply.old)) }
    ensures lent { (i : Identity) → reply.new ≡ front (nfo_received (card_of held.old len port.old plant.old i) bytes.now (length reply.old)).reply reply.old }
{
    if reply.len() < NFO_REPLY {
        return short_buffer(len);
    }
    let scan = nfo::scan(held, len, bytes);
    if !scan.taken {
        return nothing_taken(scan);
    }
    take(held, port, plant, scan, reply)
}

// A message is taken: it is served and replied to.
#[tactic(auto, using(base::proofs::Sets::fitting_all, crate::proofs::Laws::reply_short), unfolding(turn::specs::Turn::card_after, pending::specs::Held::emptied))]
fn take(
    held: &[u8; 512],
    port: &mut Numbers,
    plant: &mut Plant,
    scan: Scanned,
    reply: &mut [u8],
) -> Turned
    requires { nfo_least ≤ length reply.old }
    ensures turn { (i : Identity) → turn_in held.now port.new plant.new i result ≡ turn_of (taken nfo_stream (card_of held.now scan.len port.old plant.old i) (scan_in held.now scan)) }
    ensures lent { (i : Identity) → reply.new ≡ front (taken nfo_stream (card_of held.now scan.len port.old plant.old i) (scan_in held.now scan)).reply reply.old }
{
    let message = nfo_parts::read_message(held);
    let answer = nfo_service::serve(plant, port, message);
    after_message(port, answer);
    let len = nfo_service::write_answer(message, answer, reply);
    Turned {
        pending: 0,
        outcome: Outcome::Served(answer),
        used: scan.used,
        len,
    }
}
