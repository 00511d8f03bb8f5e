// Scanning a scrap for the first message.
ghost use Rattle.std.specs.Prelude.{◌≡◌, eqb, get_or};
ghost use Rattle.base.specs.Choice.{pick, both, either};
ghost use Rattle.pending.specs.Scanning.{scan_one, scan_from, scan_in};
ghost use Rattle.nfo.specs.Shape.{text, fits};
ghost use Rattle.nfo.specs.Message.{bcc_in};
ghost use Rattle.nfo.specs.Scan.{step_of, again, feeding};
ghost use Rattle.nfo.specs.declared.scanning.Step.TheVariants.{Keeps, Ends, Checks, Spoils};

use pending::{Scanned, begin_with, push};

// What a byte does to what is pending. It is told apart from what is done then, in `feed`, for the definitions `step_of`, `ends_by` and `next_by` are so.
#[derive(Clone, Copy)]
pub enum Step {
    // It goes on, and more is to come.
    Keeps,
    // It is the last of an ENQUIRY.
    Ends,
    // It stands where a SELECT has its BCC.
    Checks,
    // It does not go on.
    Spoils,
}

// Scans for the first message: uses the bytes up to its end, or all. A byte is tested at its place, and once more where it spoils. The bytes pending are the first `len` of
// `held`, and stay there.
//
// What is pending is taken for a beginning: of its bytes only the one at place 2 is looked at again, and at the end of a SELECT those
// that the BCC is made of. Bits that are no beginning are taken for one too, by their count and that byte; where they are more than
// the shape has, the next byte drops them.
pub fn scan(held: &mut [u8; 512], len: usize, bytes: &[u8]) -> Scanned
    ensures { scan_in held.new result ≡ scan_from feeding (record { bytes = held.old; len = len }) 0 bytes.now }
{
    let mut n = len;
    for (i, b) in bytes.iter().enumerate() {
        let turn = feed(held, n, *b, i + 1);
        if turn.taken {
            return turn;
        }
        n = turn.len;
    }
    Scanned {
        len: n,
        used: bytes.len(),
        taken: false,
    }
}

// One byte, where the first `n` of `held` are pending, and `used` bytes are used with it.
#[tactic(auto, using(base::proofs::Tests::tests), unfolding(crate::specs::Scan::fed, crate::specs::Scan::ends, crate::specs::Scan::again, pending::specs::Held::emptied, pending::specs::Held::began_with))]
fn feed(held: &mut [u8; 512], n: usize, b: u8, used: usize) -> Scanned
    ensures { scan_in held.new result ≡ scan_one feeding (record { bytes = held.old; len = n }) b used }
{
    let (len, taken) = match next_step(held, n, b) {
        Step::Keeps => (push(held, n, b), false),
        Step::Ends => (push(held, n, b), true),
        Step::Checks if b == bcc_in(held) => (push(held, n, b), true),
        Step::Checks | Step::Spoils => (begin(held, b), false),
    };
    Scanned { len, used, taken }
}

// A byte that spoils what is pending is looked at again, as a beginning of its own. (`ascii_scan` has its own: each has its own definition, `again`.)
#[tactic(auto, unfolding(crate::specs::Scan::again, pending::specs::Held::emptied, pending::specs::Held::began_with))]
fn begin(held: &mut [u8; 512], b: u8) -> usize
    ensures { record { bytes = held.new; len = result } ≡ again (record { bytes = held.old; len = 0 }) b }
{
    if b == 0x04 { begin_with(held, b) } else { 0 }
}

// The BCC of a SELECT whose other bytes are held.
#[tactic(auto, unfolding(crate::specs::Message::bcc_in))]
fn bcc_in(held: &[u8; 512]) -> u8
    ensures { result ≡ bcc_in held.now }
{
    checks::bcc(&held[3..14])
}

// What `b` does at place `n`. The byte at place 2 tells the shape: 02 stands there in a SELECT. Each place has an arm, also where several say the same:
// as one arm, `3..=6` and `9..=12` are tested besides the compiler's table: 652 instructions a message from C, where docs/SPEED.md
// holds 645.
//
// place:    0  1   2  3     6 7  8  9    12 13 14
// ENQUIRY:  04 ADR p  p p p p 05
// SELECT:   04 ADR 02 p p p p p  3D v v v v 03 BCC
#[tactic(auto, unfolding(crate::specs::Message::enquiry, crate::specs::Message::select, crate::specs::Scan::fits_at, crate::specs::Scan::step_in, crate::specs::Scan::step_of))]
fn next_step(held: &[u8; 512], n: usize, b: u8) -> Step
    ensures { result ≡ step_of n (get_or held.now 2 0) b }
{
    match n {
        0 => keeps(b == 0x04),
        1 => keeps(is_text(b)),
        2 => keeps(is_third(b)),
        3 => keeps(is_text(b)),
        4 => keeps(is_text(b)),
        5 => keeps(is_text(b)),
        6 => keeps(is_text(b)),
        7 => step_at_7(held, b),
        8 => select_keeps(held, b == 0x3D),
        9 => select_keeps(held, is_text(b)),
        10 => select_keeps(held, is_text(b)),
        11 => select_keeps(held, is_text(b)),
        12 => select_keeps(held, is_text(b)),
        13 => select_keeps(held, b == 0x03),
        14 => step_at_14(held),
        _ => Step::Spoils,
    }
}

// A byte that is not the last goes on where it is the right one.
fn keeps(right: bool) -> Step
    ensures { result ≡ pick right Keeps Spoils }
{
    if right { Step::Keeps } else { Step::Spoils }
}

// Behind the end of an ENQUIRY only a SELECT goes on.
fn select_keeps(held: &[u8; 512], right: bool) -> Step
    ensures { result ≡ pick (both (eqb (get_or held.now 2 0) 0x02) right) Keeps Spoils }
{
    keeps(held[2] == 0x02 && right)
}

// Place 7: 05 is the last of an ENQUIRY. A SELECT has the end of its parameter there, which is text, and 05 is none.
fn step_at_7(held: &[u8; 512], b: u8) -> Step
    ensures { result ≡ pick (eqb (get_or held.now 2 0) 0x02) (pick (fits text b) Keeps Spoils) (pick (eqb b 0x05) Ends Spoils) }
{
    if b != 0x05 {
        return select_keeps(held, is_text(b));
    }
    if held[2] == 0x02 {
        Step::Spoils
    } else {
        Step::Ends
    }
}

// Place 14: the BCC of a SELECT.
fn step_at_14(held: &[u8; 512]) -> Step
    ensures { result ≡ pick (eqb (get_or held.now 2 0) 0x02) Checks Spoils }
{
    if held[2] == 0x02 {
        Step::Checks
    } else {
        Step::Spoils
    }
}

// Place 2: 02 of a SELECT, or text of an ENQUIRY.
fn is_third(b: u8) -> bool
    ensures { result ≡ either (eqb b 0x02) (fits text b) }
{
    b == 0x02 || is_text(b)
}

// 20h to 7Fh
fn is_text(b: u8) -> bool
    ensures { result ≡ fits text b }
{
    (0x20..=0x7F).contains(&b)
}
