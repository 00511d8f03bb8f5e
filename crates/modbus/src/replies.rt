// The data unit of a reply, and the one writer of it.
ghost use Rattle.std.specs.Prelude.{◌≡◌, ◌∷◌, length};
ghost use Rattle.std.proofs.lemmas.List.Edits.{sets};
ghost use Rattle.modbus.specs.Answer.{short_of, unit_of};

use crate::copies::copy_at;
use crate::identified::put_part;
use identity::{Identity, Part};
use table::Register;

// What a data unit answers.
#[derive(Clone, Copy)]
pub enum Answer {
    // 03 or 04, of a row of one register: the function, the word
    Word(u8, u16),
    // 03 or 04, of a row of two registers: the function, the value
    Long(u8, u32),
    // 06 or 16: the request's function, its register, its word or count
    Echo(u8, Register, u16),
    // 43 or 17: a part of the card's identity
    Identity(Part),
    // a refusal: the request's function, the exception's number
    Exception(u8, u8),
}

// Puts the data unit of an answer that is no part of the identity at the start of `out`, as far as it fits, and tells its length: 6 bytes at most. Of a part of the identity
// it puts nothing.
#[tactic(auto, unfolding(crate::specs::Answer::short_of, modbus_words::specs::Words::word_bytes, modbus_words::specs::Words::long_bytes))]
fn put_short(answer: Answer, out: &mut [u8]) -> usize
    ensures count { result ≡ length (short_of answer) }
    ensures lent { out.new ≡ sets out.old 0 (short_of answer) }
{
    match answer {
        Answer::Word(function, word) => {
            let [high, low] = word.to_be_bytes();
            copy_at(&[function, 2, high, low], out, 0)
        }
        Answer::Long(function, value) => {
            // the low word first
            let [c, d, a, b] = value.to_be_bytes();
            copy_at(&[function, 4, a, b, c, d], out, 0)
        }
        Answer::Echo(function, register, number) => {
            let [a, b] = register.0.to_be_bytes();
            let [c, d] = number.to_be_bytes();
            copy_at(&[function, a, b, c, d], out, 0)
        }
        Answer::Identity(_) => 0,
        Answer::Exception(function, code) => copy_at(&[function | 0x80, code], out, 0),
    }
}

// Puts the answer's data unit at the start of `out`, as far as it fits, and tells its length.
#[tactic(auto, unfolding(crate::specs::Answer::unit_of, crate::specs::Answer::short_of))]
pub fn put_unit(answer: Answer, identity: &Identity, out: &mut [u8]) -> usize
    ensures count { result ≡ length (unit_of identity.now answer) }
    ensures lent { out.new ≡ sets out.old 0 (unit_of identity.now answer) }
{
    match answer {
        Answer::Identity(part) => put_part(part, identity, out),
        _ => put_short(answer, out),
    }
}

// Puts the address and, behind it, the answer's data unit at the start of `reply`, as far as they fit, and tells how many bytes these are. A part of the identity is long, and
// is written by a call of its own, so that the compiler puts the others in place and knows how long they are.
pub fn put_body(address: u8, answer: Answer, identity: &Identity, reply: &mut [u8]) -> usize
    ensures count { result ≡ length (address ∷ unit_of identity.now answer) }
    ensures lent { reply.new ≡ sets reply.old 0 (address ∷ unit_of identity.now answer) }
{
    if reply.is_empty() {
        return put_unit(answer, identity, reply) + 1;
    }
    reply[0] = address;
    if let Answer::Identity(part) = answer {
        return put_part(part, identity, &mut reply[1..]) + 1;
    }
    put_short(answer, &mut reply[1..]) + 1
}
