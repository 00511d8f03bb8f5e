// The identity of a card: revision, model and serial number, given at start and changed by no message; and which part of it a master asks for.
//
// `objects_asked` says which objects an identification code asks for. What a part holds, byte by byte, is in `specs/Identity`; `modbus` writes it.
#![tactic(auto)]

ghost use Rattle.std.specs.Prelude.{◌≡◌};
ghost use Rattle.identity.specs.Identity.{up_to, objects_asked};

// How many bytes an identity has.
pub const LENGTH: usize = 41;

// An identity: the revision's 17 bytes, the model's 8, the serial number's 16. Any bytes are one. It is an array and no struct: C lays it out so (`include/linecard.h`).
pub type Identity = [u8; LENGTH];

// Where the model begins in it.
pub const MODEL: usize = 17;

// Where the serial number does.
pub const SERIAL: usize = 25;

// The last object that code 01 tells.
pub const LAST_BASIC: u8 = 2;

// The last that there is.
pub const LAST_OBJECT: u8 = 6;

// The identity of a card that was given none: spaces.
pub const BLANK: Identity = [0x20; LENGTH];

// A part of an identity.
#[derive(Clone, Copy)]
pub enum Part {
    // function 43, type 14: the identification code, the first object, the last
    Objects(u8, u8, u8),
    // function 17: the serial number
    Serial,
}

// The objects that an identification code asks for, from the one that is named: by 01 up to 02h and by 02 up to 06h, from 00h where the named one lies outside; by 04 that
// one alone, which there is or is not. Any other code is taken as 04.
#[tactic(auto, unfolding(crate::specs::Identity::objects_asked))]
pub fn objects_asked(code: u8, object: u8) -> Option<Part>
    ensures { result ≡ objects_asked code object }
{
    match code {
        1 => Some(up_to(code, object, LAST_BASIC)),
        2 => Some(up_to(code, object, LAST_OBJECT)),
        _ if object <= LAST_OBJECT => Some(Part::Objects(code, object, object)),
        _ => None,
    }
}

// The objects up to `last`: from the one named, or from 00h if that lies outside.
#[tactic(auto, unfolding(crate::specs::Identity::up_to))]
fn up_to(code: u8, object: u8, last: u8) -> Part
    ensures { result ≡ up_to code object last }
{
    let first = if last < object { 0 } else { object };
    Part::Objects(code, first, last)
}
