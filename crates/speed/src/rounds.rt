// Rounds over a workload, in memory: its pieces go to the card one after another, the unused rest of a piece again at once.
ghost use Rattle.std.specs.Prelude.{◌≡◌, ◌<◌, ◌≤◌, length};
ghost use Rattle.speed.specs.Sum.{mixed};

use base::ASCII_REPLY;
use card::{Card, Protocol};
use port::PROTOCOL;

// How many bytes are pending, the sum over all calls, and how many messages were taken. The count of the bytes pending stands here and not in the card: read from
// the card and put into it at each call (`receive_on`), it makes 462 instructions a message of 431 on NFO serial, and docs/SPEED.md holds 449.
#[derive(Clone, Copy)]
pub(crate) struct Tally {
    pub(crate) pending: usize,
    pub(crate) sum: u32,
    pub(crate) taken: u64,
}

// One round over the workload's bytes. A piece is 7 bytes of a stream, or for Modbus RTU a frame, as many bytes as `frames` say; the last piece is what is left.
pub(crate) fn round(card: &mut Card, tally: Tally, bytes: &[u8], frames: &[usize]) -> Tally {
    let mut reply = [0u8; ASCII_REPLY];
    let mut tally = tally;
    let rtu = matches!(Protocol::from(card.port.numbers[PROTOCOL]), Protocol::Rtu);
    let mut frames = frames.iter();
    let mut rest = bytes;
    while !rest.is_empty() {
        let len = if rtu {
            frame_len(frames.next(), rest.len())
        } else {
            rest.len().min(7)
        };
        let mut piece = &rest[..len];
        while !piece.is_empty() {
            let used = call(card, &mut tally, piece, &mut reply);
            piece = &piece[used..];
        }
        rest = &rest[len..];
    }
    tally
}

// How many of the bytes that are left the frame has that this entry tells of: all, where there is none or it has no place there.
fn frame_len(entry: Option<&usize>, left: usize) -> usize
    requires { 0 < left }
    ensures { (0 < result) × (result ≤ left) }
{
    match entry {
        Some(len) if (1..=left).contains(len) => *len,
        _ => left,
    }
}

// One call on a piece, or on the rest of it. Tells how many bytes it used.
fn call(card: &mut Card, tally: &mut Tally, bytes: &[u8], reply: &mut [u8; ASCII_REPLY]) -> usize
    ensures within { result ≤ length bytes.now }
    ensures onward { 0 < length bytes.now → 0 < result }
{
    let turn = receive::receive_in(
        &mut card.port.pending.bytes,
        tally.pending,
        &mut card.port.numbers,
        &mut card.plant,
        &card.identity,
        bytes,
        reply,
    );
    let number = turn.outcome.number();
    tally.pending = turn.pending;
    tally.sum = add_call(tally.sum, number, turn.used, turn.len);
    tally.taken = tally.taken.wrapping_add(u64::from(number < 10));
    turn.used
}

// The sum with one call more: its outcome, the bytes that it used, and the reply's length.
#[tactic(auto, unfolding(crate::specs::Sum::mixed))]
fn add_call(sum: u32, number: u32, used: usize, len: usize) -> u32
    ensures { result ≡ mixed sum number used len }
{
    let before = u64::from(sum) * 16777619;
    let call = u64::from(number) + 16 * ((used % 65536) as u64) + 4096 * ((len % 65536) as u64);
    ((before + call) % 4294967296) as u32
}
