// The state, at start and after a restart.
ghost use Rattle.std.specs.Prelude.{◌≡◌, eqb};
ghost use Rattle.base.specs.Choice.{pick};
ghost use Rattle.port.specs.Port.{fresh};
ghost use Rattle.card.specs.State.{protocol_number, started, restarted};
ghost use Rattle.card.specs.declared.state.Protocol.TheVariants.{Nfo, Rtu, Ascii};

use drive::Plant;
use identity::Identity;
use pending::Pending;
use port::{Numbers, PROTOCOL};

// The protocol of a port, chosen at start. In the state it is a number, 0 NFO serial, 1 Modbus RTU, 2 Modbus ASCII: C puts it there, and every bit pattern is a card.
#[derive(Clone, Copy)]
pub enum Protocol {
    Nfo,
    Rtu,
    Ascii,
}

// What belongs to one line: the bytes pending, and the port's numbers.
#[repr(C)]
#[derive(Clone, Copy)]
pub struct Port {
    pub pending: Pending,
    pub numbers: Numbers,
}

// The whole state: a plant behind a port, and who it is. Every bit pattern is a card.
#[repr(C)]
#[derive(Clone, Copy)]
pub struct Card {
    pub port: Port,
    pub plant: Plant,
    pub identity: Identity,
}

// The number that a port has for its protocol.
impl From<Protocol> for u32 {
    ghost from_gives = { λ protocol number. number ≡ protocol_number protocol };

    fn from(protocol: Protocol) -> u32 {
        match protocol {
            Protocol::Nfo => 0,
            Protocol::Rtu => 1,
            Protocol::Ascii => 2,
        }
    }
}

// The protocol that a number stands for: any but 1 and 2 is NFO serial.
impl From<u32> for Protocol {
    ghost from_gives = { λ number protocol. protocol ≡ pick (eqb number 1) Rtu (pick (eqb number 2) Ascii Nfo) };

    fn from(number: u32) -> Protocol {
        match number {
            1 => Protocol::Rtu,
            2 => Protocol::Ascii,
            _ => Protocol::Nfo,
        }
    }
}

// The numbers of a fresh port of this protocol.
pub fn fresh_port(protocol: Protocol) -> Numbers
    ensures { result ≡ fresh (protocol_number protocol) }
{
    [u32::from(protocol), 0, 0]
}

// The numbers of a port after a restart: the protocol is kept, time sum and SioErr are 0.
pub fn restarted_port(port: Numbers) -> Numbers
    ensures { result ≡ fresh (Rattle.port.specs.Port.protocol port) }
{
    [port[PROTOCOL], 0, 0]
}

impl Card {
    // A card at start, with this identity: the table's start words, DIN1 inactive, no cause, nothing pending.
    #[tactic(auto, unfolding(crate::specs::State::started))]
    pub fn start(protocol: Protocol, identity: Identity) -> Card
        ensures { result ≡ started protocol identity }
    {
        Card {
            port: Port {
                pending: Pending::empty(),
                numbers: fresh_port(protocol),
            },
            plant: drive::start(),
            identity,
        }
    }

    // The card after a restart: the settings, DIN1, causes, measured numbers and the identity are kept, nothing is pending, MbAdr counts from now on,
    // and a SiAdr of 0 or 95 is 1.
    #[tactic(auto, unfolding(crate::specs::State::restarted))]
    pub fn restart(mut self) -> Card
        ensures { result ≡ restarted self }
    {
        self.port = Port {
            pending: self.port.pending.emptied(),
            numbers: restarted_port(self.port.numbers),
        };
        drive::restart(&mut self.plant);
        self
    }
}
