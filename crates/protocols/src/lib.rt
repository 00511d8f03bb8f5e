// The words by which a user names a protocol: `nfo`, `rtu` and `ascii`.
#![tactic(auto)]

ghost use Rattle.std.specs.Prelude.{◌≡◌};
ghost use Rattle.protocols.specs.Words.{protocol_named};

use card::Protocol;

// The protocol that the word names: `nfo` is NFO serial, `rtu` Modbus RTU, `ascii` Modbus ASCII. Small letters only; any other word names nothing.
// A function and no `TryFrom`: docs/PROMISES.md names it, and an impl would stand in `card`.
#[tactic(auto, using(base::proofs::Tests::tests, crate::proofs::Laws::letters), unfolding(crate::specs::Words::protocol_named))]
pub fn protocol_of(word: &[u8]) -> Option<Protocol>
    ensures { result ≡ protocol_named word.now }
{
    match word {
        b"nfo" => Some(Protocol::Nfo),
        b"rtu" => Some(Protocol::Rtu),
        b"ascii" => Some(Protocol::Ascii),
        _ => None,
    }
}
