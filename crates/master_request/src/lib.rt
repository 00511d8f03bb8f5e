// The requests of a Modbus master: what can be asked, and `body_of`, which makes the address and the data unit of it. RTU and ASCII put their checks around
// these.
#![tactic(auto)]

ghost use Rattle.std.specs.Prelude.{◌≡◌, ◌∷◌, ◌≤◌, length};
ghost use Rattle.master_request.specs.Ask.{read_sayable, many_sayable, sayable, head_of, many_unit, body_with, body_said};

use table::Register;

// What a master asks. The register bytes of a `Many`, high byte first, are handed over beside it; the others have none.
#[derive(Clone, Copy)]
pub enum Ask {
    // 03: the first register, the count
    Holding(Register, u16),
    // 04: the first register, the count
    Input(Register, u16),
    // 06: the register, the word
    One(Register, u16),
    // 16: the first register
    Many(Register),
}

// The bytes of a message before its check: so many, and past them 0. An array with a size, and no `Vec`: the project has no heap.
#[derive(Clone, Copy)]
pub struct Body {
    pub bytes: [u8; 256],
    pub size: usize,
}

// Whether a read of `count` registers can be said.
#[tactic(auto, unfolding(crate::specs::Ask::read_sayable), using(base::proofs::Tests::tests))]
fn read_sayable(address: u8, count: u16) -> bool
    ensures { result ≡ read_sayable address count }
{
    (1..=247).contains(&address) && (1..=125).contains(&count)
}

// Whether a 16 of so many register bytes can be said.
#[tactic(auto, unfolding(crate::specs::Ask::many_sayable), using(base::proofs::Tests::tests))]
fn many_sayable(address: u8, bytes: usize) -> bool
    ensures { result ≡ many_sayable address bytes }
{
    address <= 247 && bytes % 2 == 0 && (1..=123).contains(&(bytes / 2))
}

// Whether it can be said, with so many register bytes beside it.
#[tactic(auto, unfolding(crate::specs::Ask::sayable), using(base::proofs::Tests::tests))]
fn sayable(address: u8, ask: Ask, bytes: usize) -> bool
    ensures { result ≡ sayable address ask bytes }
{
    match ask {
        Ask::Holding(_, count) | Ask::Input(_, count) => read_sayable(address, count),
        Ask::One(_, _) => address <= 247,
        Ask::Many(_) => many_sayable(address, bytes),
    }
}

// The address and the unit of a 03, 04 or 06.
fn short_body(address: u8, function: u8, register: Register, number: u16) -> Body
    ensures { result ≡ body_with (address ∷ head_of function register number) }
{
    let [a, b] = register.0.to_be_bytes();
    let [c, d] = number.to_be_bytes();
    let mut bytes = [0u8; 256];
    bytes[..6].copy_from_slice(&[address, function, a, b, c, d]);
    Body { bytes, size: 6 }
}

// The address and the unit of a 16.
fn long_body(address: u8, first: Register, registers: &[u8]) -> Body
    requires { length registers.now ≤ 246 }
    ensures { result ≡ body_with (address ∷ many_unit first registers.now) }
{
    let n = registers.len();
    let [a, b] = first.0.to_be_bytes();
    let [c, d] = ((n / 2) as u16).to_be_bytes();
    let mut bytes = [0u8; 256];
    bytes[..7].copy_from_slice(&[address, 16, a, b, c, d, n as u8]);
    bytes[7..n + 7].copy_from_slice(registers);
    Body { bytes, size: n + 7 }
}

// The address and the data unit of what is asked; none where it cannot be said.
pub fn body_of(address: u8, ask: Ask, registers: &[u8]) -> Option<Body>
    ensures { result ≡ body_said address ask registers.now }
{
    if !sayable(address, ask, registers.len()) {
        return None;
    }
    match ask {
        Ask::Holding(first, count) => Some(short_body(address, 3, first, count)),
        Ask::Input(first, count) => Some(short_body(address, 4, first, count)),
        Ask::One(register, word) => Some(short_body(address, 6, register, word)),
        Ask::Many(first) => Some(long_body(address, first, registers)),
    }
}
