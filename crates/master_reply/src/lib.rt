// The replies that a Modbus master reads: `read_unit` tells what an address and a data unit are, with the register words of a read beside it.
// RTU and ASCII test what stands around these.
#![tactic(auto)]

ghost use Rattle.std.specs.Prelude.{◌≡◌, ◌≤◌, replicate};
ghost use Rattle.base.specs.Buffers.{front};
ghost use Rattle.master_reply.specs.Reply.{reply_number, read_count, tells_data, tells_one, tells_many, tells_exception, unit_tells, reply_of, registers_of, words_from, heard_of};

use modbus_words::{byte_at, word_at};
use table::Register;

// What a master hears.
#[derive(Clone, Copy)]
pub enum Reply {
    // 03 or 04: the address, the function, how many registers
    Data(u8, u8, usize),
    // 06: the address, the register, the word
    One(u8, Register, u16),
    // 16: the address, the first register, the count
    Many(u8, Register, u16),
    // a refusal: the address, the function with its top bit set, the exception's number
    Exception(u8, u8, u8),
}

// What a master hears, if it is a reply, and the words of the registers that it read, beside it. Past these the words are 0. An array for the most there are, and no `Vec`:
// the project has no heap.
#[derive(Clone, Copy)]
pub struct Heard {
    pub words: [u16; 125],
    pub reply: Option<Reply>,
}

// No reply, and no words.
pub const NO_REPLY: Heard = Heard {
    words: [0u16; 125],
    reply: None,
};

// Document 01's number: 14 is not a reply. `master_nfo` has one of its own: each kind of reply has a definition of its number.
pub fn number_of(reply: Option<Reply>) -> u32
    ensures { result ≡ reply_number reply }
{
    match reply {
        Some(_) => 0,
        None => 14,
    }
}

// Whether a read is answered by so many register bytes.
#[tactic(auto, unfolding(crate::specs::Reply::read_count), using(base::proofs::Tests::tests))]
fn read_count(bytes: u8) -> bool
    ensures { result ≡ read_count bytes }
{
    bytes % 2 == 0 && (2..=250).contains(&bytes)
}

// Whether a unit of `size` bytes is the answer to a 03 or 04.
#[tactic(auto, unfolding(crate::specs::Reply::tells_data), using(base::proofs::Tests::tests))]
fn tells_data(size: usize, function: u8, bytes: u8) -> bool
    ensures { result ≡ tells_data size function bytes }
{
    matches!(function, 3 | 4) && read_count(bytes) && size == usize::from(bytes) + 2
}

// Whether it is the answer to a 06.
#[tactic(auto, unfolding(crate::specs::Reply::tells_one), using(base::proofs::Tests::tests))]
fn tells_one(size: usize, function: u8) -> bool
    ensures { result ≡ tells_one size function }
{
    function == 6 && size == 5
}

// Whether it is the answer to a 16.
#[tactic(auto, unfolding(crate::specs::Reply::tells_many), using(base::proofs::Tests::tests))]
fn tells_many(size: usize, function: u8, count: u16) -> bool
    ensures { result ≡ tells_many size function count }
{
    function == 16 && size == 5 && (1..=123).contains(&count)
}

// Whether it is an exception.
#[tactic(auto, unfolding(crate::specs::Reply::tells_exception), using(base::proofs::Tests::tests))]
fn tells_exception(size: usize, function: u8, code: u8) -> bool
    ensures { result ≡ tells_exception size function code }
{
    0x80 <= function && size == 2 && (1..=4).contains(&code)
}

// What a unit of `size` bytes tells, by its function, the byte and the word behind that, and the word behind this.
#[tactic(auto, unfolding(crate::specs::Reply::unit_tells), using(base::proofs::Tests::tests))]
fn unit_tells(
    address: u8,
    size: usize,
    function: u8,
    second: u8,
    register: u16,
    number: u16,
) -> Option<Reply>
    ensures { result ≡ unit_tells address size function second register number }
{
    if tells_data(size, function, second) {
        Some(Reply::Data(address, function, usize::from(second / 2)))
    } else if tells_one(size, function) {
        Some(Reply::One(address, Register(register), number))
    } else if tells_many(size, function, number) {
        Some(Reply::Many(address, Register(register), number))
    } else if tells_exception(size, function, second) {
        Some(Reply::Exception(address, function, second))
    } else {
        None
    }
}

// What a unit from an address tells.
#[tactic(auto, unfolding(crate::specs::Reply::reply_of), using(base::proofs::Tests::tests))]
fn reply_of(address: u8, unit: &[u8]) -> Option<Reply>
    ensures { result ≡ reply_of address unit.now }
{
    if !(1..=247).contains(&address) {
        return None;
    }
    unit_tells(
        address,
        unit.len(),
        byte_at(unit, 0),
        byte_at(unit, 1),
        word_at(unit, 1),
        word_at(unit, 3),
    )
}

// How many registers a reply brings.
fn registers_of(reply: Option<Reply>) -> usize
    ensures { result ≡ registers_of reply }
{
    match reply {
        Some(Reply::Data(_, _, count)) => count,
        _ => 0,
    }
}

// The first `count` words behind a read's byte count.
fn words_in(unit: &[u8], count: usize) -> [u16; 125]
    requires { count ≤ 125 }
    ensures { result ≡ front (words_from unit.now 2 count) (replicate 125 0) }
{
    let mut words = [0u16; 125];
    for i in 0..count {
        words[i] = word_at(unit, 2 * i + 2);
    }
    words
}

// What a data unit from an address tells: one of the replies with its numbers, or that it is none; and the words that a read brought.
pub fn read_unit(address: u8, unit: &[u8]) -> Heard
    ensures { result ≡ heard_of address unit.now }
{
    let reply = reply_of(address, unit);
    let words = words_in(unit, registers_of(reply));
    Heard { words, reply }
}
