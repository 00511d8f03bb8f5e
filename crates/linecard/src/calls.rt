// Bytes from the line, by one protocol or by the port's, and where register data lies in a frame.
ghost use Rattle.std.specs.Prelude.{◌≡◌, length, take, drop, get_or};
ghost use Rattle.card.specs.State.{card_of};
ghost use Rattle.card.specs.Outcome.{outcome_number};
ghost use Rattle.nfo_port.specs.Receive.{nfo_received};
ghost use Rattle.rtu_port.specs.Receive.{rtu_received};
ghost use Rattle.ascii_port.specs.Receive.{ascii_received};
ghost use Rattle.receive.specs.Receive.{received};
ghost use Rattle.rtu.specs.Rtu.{register_data};
ghost use Rattle.linecard.specs.Told.{told_in, Leaves, LeavesAnyone, place_of};

use drive::Plant;
use identity::Identity;
use port::{Numbers, PROTOCOL};
use turn::Turned;

// Tells the host what a call came to: how many bytes are pending, the bytes used and the reply's length, and the outcome's number.
fn tell(turn: Turned, len: &mut usize, told: &mut [usize; 2]) -> u32
    ensures number { result ≡ outcome_number turn.outcome }
    ensures pending { len.new ≡ turn.pending }
    ensures told { told.new ≡ told_in turn }
{
    *len = turn.pending;
    *told = [turn.used, turn.len];
    turn.outcome.number()
}

// Reads bytes as NFO serial, whatever the port's protocol is, serves the first message taken, and puts its reply at the start of `reply`. `told` gets the
// bytes used and the reply's length.
pub fn card_receive_nfo_in(
    held: &mut [u8; 512],
    len: &mut usize,
    port: &mut Numbers,
    plant: &mut Plant,
    bytes: &[u8],
    reply: &mut [u8],
    told: &mut [usize; 2],
) -> u32
    ensures { LeavesAnyone (card_of held.new len.new port.new plant.new) result reply.old reply.new told.new (λ i. nfo_received (card_of held.old len.old port.old plant.old i) bytes.now (length reply.old)) }
{
    let turn = nfo_port::receive(held, *len, port, plant, bytes, reply);
    tell(turn, len, told)
}

// The same of Modbus ASCII.
pub fn card_receive_ascii_in(
    held: &mut [u8; 512],
    len: &mut usize,
    port: &mut Numbers,
    plant: &mut Plant,
    identity: &Identity,
    bytes: &[u8],
    reply: &mut [u8],
    told: &mut [usize; 2],
) -> u32
    ensures { Leaves (card_of held.new len.new port.new plant.new identity.now) result reply.old reply.new told.new (ascii_received (card_of held.old len.old port.old plant.old identity.now) bytes.now (length reply.old)) }
{
    let turn = ascii_port::receive(held, *len, port, plant, identity, bytes, reply);
    tell(turn, len, told)
}

// The same of Modbus RTU, where the bytes are one frame.
pub fn card_receive_rtu_in(
    held: &mut [u8; 512],
    len: &mut usize,
    port: &mut Numbers,
    plant: &mut Plant,
    identity: &Identity,
    bytes: &[u8],
    reply: &mut [u8],
    told: &mut [usize; 2],
) -> u32
    ensures { Leaves (card_of held.new len.new port.new plant.new identity.now) result reply.old reply.new told.new (rtu_received (card_of held.old len.old port.old plant.old identity.now) bytes.now (length reply.old)) }
{
    let turn = rtu_port::receive(held, *len, port, plant, identity, bytes, reply);
    tell(turn, len, told)
}

// The same by the port's protocol. Its number is matched as it stands in the port: by `Protocol::from` it took 6 instructions a call more.
#[tactic(auto, unfolding(receive::specs::Receive::received))]
pub fn card_receive_in(
    held: &mut [u8; 512],
    len: &mut usize,
    port: &mut Numbers,
    plant: &mut Plant,
    identity: &Identity,
    bytes: &[u8],
    reply: &mut [u8],
    told: &mut [usize; 2],
) -> u32
    ensures { Leaves (card_of held.new len.new port.new plant.new identity.now) result reply.old reply.new told.new (received (card_of held.old len.old port.old plant.old identity.now) bytes.now (length reply.old)) }
{
    match port[PROTOCOL] {
        1 => card_receive_rtu_in(held, len, port, plant, identity, bytes, reply, told),
        2 => card_receive_ascii_in(held, len, port, plant, identity, bytes, reply, told),
        _ => card_receive_nfo_in(held, len, port, plant, bytes, reply, told),
    }
}

// Where the register data of a well-made 06 or 16 lies in its RTU frame: `place` gets its first place and its length; for other bytes 0 and 0.
#[tactic(auto, using(crate::proofs::Laws::length_told, crate::proofs::Laws::place_told, crate::proofs::Laws::part_told))]
pub fn card_register_data(frame: &[u8], place: &mut [usize; 2])
    ensures at { place.new ≡ place_of frame.now }
    ensures part { take (get_or place.new 1 0) (drop (get_or place.new 0 0) frame.now) ≡ register_data frame.now }
{
    let span = rtu::register_span(frame);
    *place = [span.from, span.to - span.from];
}
