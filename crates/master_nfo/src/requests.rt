// Writing ENQUIRY and SELECT at the start of a lent buffer. Any E number and any word may be said. A request that cannot be said, or that the
// buffer has no room for, leaves it alone.
ghost use Rattle.std.specs.Prelude.{◌≡◌, ◌≤◌, length};
ghost use Rattle.base.specs.Buffers.{front};
ghost use Rattle.master.specs.Sent.{sent_of, bytes_sent};
ghost use Rattle.master_nfo.specs.Requests.{enquirable, selectable, enquiry_of, select_of};

use master::{Sent, Unsent, send};
use table::ENumber;

// ENQUIRY: asks for the parameter's word. It cannot be said to 95, which is broadcast.
#[tactic(auto, unfolding(crate::specs::Requests::enquirable, master::specs::Sent::sent_of, master::specs::Sent::bytes_sent, base::specs::Buffers::front))]
pub fn enquiry(address: u8, e: ENumber, out: &mut [u8]) -> Sent
    ensures sent { result ≡ sent_of (enquirable address) (enquiry_of address e.0) (length out.old) }
    ensures lent { out.new ≡ front (bytes_sent (enquirable address) (enquiry_of address e.0) (length out.old)) out.old }
{
    if address < 95 {
        send(&enquiry_to(address, e), out)
    } else {
        Err(Unsent::CannotBeSaid)
    }
}

// SELECT: writes the parameter's word, two's complement. To 95 it is for all.
#[tactic(auto, unfolding(crate::specs::Requests::selectable, master::specs::Sent::sent_of, master::specs::Sent::bytes_sent, base::specs::Buffers::front))]
pub fn select(address: u8, e: ENumber, word: u16, out: &mut [u8]) -> Sent
    ensures sent { result ≡ sent_of (selectable address) (select_of address e.0 word) (length out.old) }
    ensures lent { out.new ≡ front (bytes_sent (selectable address) (select_of address e.0 word) (length out.old)) out.old }
{
    if address <= 95 {
        send(&select_to(address, e, word), out)
    } else {
        Err(Unsent::CannotBeSaid)
    }
}

// place:    0  1   2       6 7
// ENQUIRY:  04 ADR p p p p p 05
#[tactic(auto, unfolding(hex_pairs::specs::Hex::hex_of, nfo_parts::specs::Replies::digits_of, crate::specs::Requests::enquiry_of))]
fn enquiry_to(address: u8, e: ENumber) -> [u8; 8]
    requires { address ≤ 95 }
    ensures { result ≡ enquiry_of address e.0 }
{
    let mut m = [0x04, address + 32, b'E', 0, 0, 0, 0, 0x05];
    hex_pairs::encode(&e.0.to_be_bytes(), &mut m[3..7]);
    m
}

// place:   0  1   2  3       7 8  9    12 13 14
// SELECT:  04 ADR 02 p p p p p 3D v v v v 03 BCC
// After its 04 it has the bytes of a REPLY.
#[tactic(auto, unfolding(hex_pairs::specs::Hex::hex_of, base::specs::Buffers::front, base::specs::Buffers::fitting, nfo_parts::specs::Replies::digits_of, nfo_parts::specs::Replies::reply_of, crate::specs::Requests::select_of))]
fn select_to(address: u8, e: ENumber, word: u16) -> [u8; 15]
    requires { address ≤ 95 }
    ensures { result ≡ select_of address e.0 word }
{
    let mut m = [0x04; 15];
    nfo_parts::reply(address + 32, e, word, &mut m[1..15]);
    m
}
