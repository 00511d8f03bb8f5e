// The master's end of a Modbus RTU line: `write_request` puts the frame of what is asked, `read_reply` tells what a frame answers.
#![tactic(auto)]

ghost use Rattle.std.specs.Prelude.{◌≡◌, length};
ghost use Rattle.base.specs.Buffers.{front};
ghost use Rattle.rtu.specs.Rtu.{rtu_of};
ghost use Rattle.master.specs.Sent.{sent_of, bytes_sent};
ghost use Rattle.master_request.specs.Ask.{sayable, request_unit};
ghost use Rattle.master_rtu.specs.Heard.{rtu_heard};

use master::{Sent, Unsent, send};
use master_reply::{Heard, NO_REPLY, read_unit};
use master_request::{Ask, body_of};

// Puts the frame of what is asked at the start of `out`: 13 where it cannot be said, then 10 where it does not fit. `registers` are the register bytes of
// a `Many`; the others do not look at them. `master_ascii` has its own and the two are no generic one: past the body they have nothing in common but `Sent`, since RTU makes its frame in the
// body's own array and ASCII spells the body straight into `out`.
pub fn write_request(address: u8, ask: Ask, registers: &[u8], out: &mut [u8]) -> Sent
    ensures sent { result ≡ sent_of (sayable address ask (length registers.now)) (rtu_of address (request_unit ask registers.now)) (length out.old) }
    ensures lent { out.new ≡ front (bytes_sent (sayable address ask (length registers.now)) (rtu_of address (request_unit ask registers.now)) (length out.old)) out.old }
{
    let Some(body) = body_of(address, ask, registers) else {
        return Err(Unsent::CannotBeSaid);
    };
    let end = body.size;
    let mut frame = body.bytes;
    let [low, high] = checks::crc(&frame[..end]).to_le_bytes();
    frame[end] = low;
    frame[end + 1] = high;
    send(&frame[..end + 2], out)
}

// What a frame answers: one of the replies with its numbers, or that it is none; and the words that a read brought.
pub fn read_reply(frame: &[u8]) -> Heard
    ensures { result ≡ rtu_heard frame.now }
{
    if rtu::frame_holds(frame) {
        read_unit(rtu::address_in(frame), rtu::unit_in(frame))
    } else {
        NO_REPLY
    }
}
