// The RTU frame of Modbus: address, data unit, CRC.
// `frame_holds`, `address_in` and `unit_in` read a request's frame, `register_data` hands out a part of it, `register_span` says where that lies, and
// `put_rtu` writes a reply's.
#![tactic(auto)]

ghost use Rattle.std.specs.Prelude.{◌≡◌, ◌+◌, ◌≤◌, length, take};
ghost use Rattle.std.proofs.lemmas.List.Edits.{sets};
ghost use Rattle.base.specs.Buffers.{front, rtu_least};
ghost use Rattle.checks.specs.Crc.{crc_bytes};
ghost use Rattle.modbus.specs.Answer.{unit_of};
ghost use Rattle.modbus.specs.Reply.{reply_in};
ghost use Rattle.rtu.specs.Rtu.{frame_holds, address_in, unit_in, rtu_of, data_of, register_span, register_data};

use base::RTU_REPLY;
use identity::Identity;
use modbus::{Answer, Request, Span, asked_of, put_body};

// Where no register data lies. No `Option<Span>` in its place: `card_register_data`, which C calls, tells 0 and 0 then, and so does the definition `register_span`.
const NOWHERE: Span = Span { from: 0, to: 0 };

// Whether a frame's length and CRC are right.
#[tactic(auto, unfolding(crate::specs::Rtu::frame_holds), using(base::proofs::Tests::tests))]
pub fn frame_holds(frame: &[u8]) -> bool
    ensures { result ≡ frame_holds frame.now }
{
    (4..=256).contains(&frame.len()) && checks::crc_holds(frame)
}

// The address of a frame; of no bytes at all, 0.
#[tactic(auto, unfolding(crate::specs::Rtu::address_in))]
pub fn address_in(frame: &[u8]) -> u8
    ensures { result ≡ address_in frame.now }
{
    frame.first().copied().unwrap_or(0)
}

// The data unit of a frame, as a part of it: all but the address and the CRC. Of fewer than three bytes, an empty part.
#[tactic(auto, using(crate::proofs::Frames::unit_none, crate::proofs::Frames::unit_part))]
pub fn unit_in(frame: &[u8]) -> &[u8]
    ensures { result.now ≡ unit_in frame.now }
{
    match frame {
        [_, unit @ .., _, _] => unit,
        _ => &[],
    }
}

// Where in its frame the register data of a request lies: behind the register of a 06, behind the byte count of a 16; else from 0 to 0.
fn data_of(request: Request) -> Span
    ensures { result ≡ data_of request }
{
    match request {
        Request::One(_, _) => Span { from: 4, to: 6 },
        Request::Many(_, count, _) => Span {
            from: 7,
            to: 7 + 2 * usize::from(count),
        },
        Request::Read(_, _, _)
        | Request::Identify(_, _)
        | Request::Serial
        | Request::Malformed(_)
        | Request::Unknown(_) => NOWHERE,
    }
}

// Where the register data of a well-made 06 or 16 lies in its frame; else from 0 to 0.
pub fn register_span(frame: &[u8]) -> Span
    ensures { result ≡ register_span frame.now }
{
    if frame_holds(frame) {
        data_of(asked_of(unit_in(frame)))
    } else {
        NOWHERE
    }
}

// The register data of a well-made 06 or 16, whatever its address, as a part of the frame; of other bytes, an empty part.
pub fn register_data(frame: &[u8]) -> &[u8]
    ensures { result.now ≡ register_data frame.now }
{
    let Span { from, to } = register_span(frame);
    &frame[from..to]
}

// Puts the reply's frame at the start of `reply` and tells its length. A buffer under 256 bytes is left as it is, and the length is 0, as the definition `reply_in` has it. A part of the identity goes by itself, so
// that the compiler knows how long the other replies can be.
pub fn put_rtu(address: u8, answer: Answer, identity: &Identity, reply: &mut [u8]) -> usize
    ensures count { result ≡ length (reply_in rtu_least (length reply.old) (rtu_of address (unit_of identity.now answer))) }
    ensures lent { reply.new ≡ front (reply_in rtu_least (length reply.old) (rtu_of address (unit_of identity.now answer))) reply.old }
{
    if reply.len() < RTU_REPLY {
        return 0;
    }
    if let Answer::Identity(_) = answer {
        let end = put_body(address, answer, identity, reply);
        return seal(end, reply);
    }
    let end = put_body(address, answer, identity, reply);
    seal(end, reply)
}

// Puts the CRC behind the body, which ends at `end`, and tells where the frame ends.
fn seal(end: usize, reply: &mut [u8]) -> usize
    requires { end + 2 ≤ length reply.old }
    ensures count { result ≡ end + 2 }
    ensures lent { reply.new ≡ sets reply.old end (crc_bytes (take end reply.old)) }
{
    let [low, high] = checks::crc(&reply[..end]).to_le_bytes();
    reply[end] = low;
    reply[end + 1] = high;
    end + 2
}
