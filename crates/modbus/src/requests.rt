// The data unit of a request: its bytes after the address, without the check.
ghost use Rattle.std.specs.Prelude.{◌≡◌};
ghost use Rattle.modbus.specs.Request.{reads, writes, asked, asked_of, identifying, numbering, request_of};

use modbus_words::{byte_at, word_at};
use table::Register;

// A part of a slice: the place of its first byte, and the place after its last. It is no `Range`: a request is copied and a `Range` is not.
#[derive(Clone, Copy)]
pub struct Span {
    pub from: usize,
    pub to: usize,
}

// What a data unit asks.
#[derive(Clone, Copy)]
pub enum Request {
    // 03 or 04: the function, the first register, the count. The function stays a byte, here and in replies: a reply repeats it, of unknown functions too
    Read(u8, Register, u16),
    // 06: the register, the word
    One(Register, u16),
    // 16: the first register, the count, the place of the register bytes in the unit
    Many(Register, u16, Span),
    // 43, type 14: the identification code, the object
    Identify(u8, u8),
    // 17
    Serial,
    // These two are refusals, 8 and 9, and no `Result` beside the rest: document 01's order, 9, 1 for a broadcast read, 8, has one between them, so the service takes all seven
    // apart at once.
    //
    // one of these functions, with a length, a count or an identification code that it does not have
    Malformed(u8),
    // any other function, or 43 of another type
    Unknown(u8),
}

// Whether a read of `count` registers has a unit of `size` bytes.
#[tactic(auto, unfolding(crate::specs::Request::reads), using(base::proofs::Tests::tests))]
fn reads(size: usize, count: u16) -> bool
    ensures { result ≡ reads size count }
{
    size == 5 && (1..=125).contains(&count)
}

// Whether a 16 of `count` registers has a unit of `size` bytes and the byte count `bytes`.
#[tactic(auto, unfolding(crate::specs::Request::writes), using(base::proofs::Tests::tests))]
fn writes(size: usize, count: u16, bytes: u8) -> bool
    ensures { result ≡ writes size count bytes }
{
    let twice = 2 * usize::from(count);
    (1..=123).contains(&count) && usize::from(bytes) == twice && size == 6 + twice
}

// What a unit of `size` bytes asks, by its function, the register and the number behind it, and the byte count of a 16.
#[tactic(auto, unfolding(crate::specs::Request::asked), using(base::proofs::Tests::tests))]
fn asked(size: usize, function: u8, register: u16, number: u16, bytes: u8) -> Request
    ensures { result ≡ asked size function register number bytes }
{
    match function {
        3 | 4 => {
            if reads(size, number) {
                return Request::Read(function, Register(register), number);
            }
            Request::Malformed(function)
        }
        6 => {
            if size == 5 {
                return Request::One(Register(register), number);
            }
            Request::Malformed(6)
        }
        16 => {
            if writes(size, number, bytes) {
                let to = 6 + 2 * usize::from(number);
                return Request::Many(Register(register), number, Span { from: 6, to });
            }
            Request::Malformed(16)
        }
        _ => Request::Unknown(function),
    }
}

// What a unit of `size` bytes with function 43 asks, by its type, its identification code and its object.
#[tactic(auto, unfolding(crate::specs::Request::identifying), using(base::proofs::Tests::tests))]
fn identifying(size: usize, kind: u8, code: u8, object: u8) -> Request
    ensures { result ≡ identifying size kind code object }
{
    if 2 <= size && kind != 14 {
        Request::Unknown(43)
    } else if size == 4 && matches!(code, 1 | 2 | 4) {
        Request::Identify(code, object)
    } else {
        Request::Malformed(43)
    }
}

// What a unit of `size` bytes with function 17 asks.
#[tactic(auto, unfolding(crate::specs::Request::numbering), using(base::proofs::Tests::tests))]
fn numbering(size: usize) -> Request
    ensures { result ≡ numbering size }
{
    if size == 1 {
        Request::Serial
    } else {
        Request::Malformed(17)
    }
}

// What the data unit `unit` asks by one of the four functions: its function, label and numbers, or that it is malformed; any other function is unknown. None of the four has
// fewer than 5 bytes, so of a shorter unit the function alone counts.
#[tactic(auto, unfolding(crate::specs::Request::asked_of), using(crate::proofs::Laws::asked_few))]
pub fn asked_of(unit: &[u8]) -> Request
    ensures { result ≡ asked_of unit.now }
{
    let function = byte_at(unit, 0);
    if unit.len() < 5 {
        return asked(unit.len(), function, 0, 0, 0);
    }
    let register = word_at(unit, 1);
    let number = word_at(unit, 3);
    asked(unit.len(), function, register, number, byte_at(unit, 5))
}

// What the data unit `unit` asks: by the four functions, or by 43 or 17.
pub fn request_of(unit: &[u8]) -> Request
    ensures { result ≡ request_of unit.now }
{
    let request = asked_of(unit);
    let Request::Unknown(function) = request else {
        return request;
    };
    match function {
        43 => identifying(
            unit.len(),
            byte_at(unit, 1),
            byte_at(unit, 2),
            byte_at(unit, 3),
        ),
        17 => numbering(unit.len()),
        _ => Request::Unknown(function),
    }
}
