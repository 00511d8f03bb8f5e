// Taking a message apart.
ghost use Rattle.std.specs.Prelude.{◌≡◌};
ghost use Rattle.nfo_parts.specs.Parts.{value_at, parameter_at, message_of};

use table::ENumber;

// A message, with the byte ADR as it came. A parameter that is not `E` and four hex digits names nothing, and a value that is not four hex digits is none.
#[derive(Clone, Copy)]
pub enum Message {
    Enquiry {
        adr: u8,
        parameter: Option<ENumber>,
    },
    Select {
        adr: u8,
        parameter: Option<ENumber>,
        value: Option<u16>,
    },
}

// Takes the message that `m` holds apart, by its places. Other bytes are read at the same places.
//
// place:    0  1   2  3       7 8  9    12 13 14
// ENQUIRY:  04 ADR p  p p p p 05
// SELECT:   04 ADR 02 p p p p p 3D v v v v 03 BCC
#[tactic(auto, unfolding(crate::specs::Parts::parameter_at, crate::specs::Parts::value_at, crate::specs::Parts::message_of))]
pub fn read_message(m: &[u8; 512]) -> Message
    ensures { result ≡ message_of m.now }
{
    let adr = m[1];
    if m[2] == 0x02 {
        return Message::Select {
            adr,
            parameter: parameter_of([m[3], m[4], m[5], m[6], m[7]]),
            value: value_of([m[9], m[10], m[11], m[12]]),
        };
    }
    Message::Enquiry {
        adr,
        parameter: parameter_of([m[2], m[3], m[4], m[5], m[6]]),
    }
}

// The E number that a parameter's five characters name.
#[tactic(auto, unfolding(crate::specs::Parts::parameter_at, crate::specs::Parts::value_at))]
fn parameter_of(text: [u8; 5]) -> Option<ENumber>
    ensures { result ≡ parameter_at 0 text }
{
    let [letter, a, b, c, d] = text;
    if letter != b'E' {
        return None;
    }
    value_of([a, b, c, d]).map(ENumber)
}

// The word that four hex digits spell, the high one first.
#[tactic(auto, unfolding(crate::specs::Parts::value_at))]
pub fn value_of(digits: [u8; 4]) -> Option<u16>
    ensures { result ≡ value_at 0 digits }
{
    let [a, b, c, d] = digits;
    let Some(high) = hex_pairs::pair_value(a, b) else {
        return None;
    };
    let Some(low) = hex_pairs::pair_value(c, d) else {
        return None;
    };
    Some(u16::from_be_bytes([high, low]))
}
