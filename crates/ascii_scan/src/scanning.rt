// Scanning a scrap for the first message.
ghost use Rattle.std.specs.Prelude.{◌≡◌, ◌<◌, ◌≤◌, false, length, drop};
ghost use Rattle.base.specs.Choice.{pick};
ghost use Rattle.pending.specs.Held.{pushed};
ghost use Rattle.pending.specs.Scanning.{scan_from, scan_on, scan_in};
ghost use Rattle.ascii_scan.specs.Scan.{ended, goes_on, again, feeding};

use crate::digits::push_digits;
use crate::pairs::{cr_fits, digit_fits};
use pending::{Scanned, begin_with, push};

// Scans for the first message: uses the bytes up to its end, or all. A byte is tested once, at its place. The bytes pending are the first `len` of
// `held`, and stay there.
//
// What is pending is taken for a beginning: of its bytes only the last is looked at again; at CR and from the 509th digit on, the digits are summed.
// Bits that are no beginning are taken for one too, by their count and those bytes. The LF of a message is not held. It is no `for`: a step takes a run of bytes.
#[tactic(auto, using(crate::proofs::Turns::step_again, crate::proofs::Turns::scan_ended))]
pub fn scan(held: &mut [u8; 512], len: usize, bytes: &[u8]) -> Scanned
    ensures { scan_in held.new result ≡ scan_from feeding (record { bytes = held.old; len = len }) 0 bytes.now }
{
    let mut so_far = Scanned {
        len,
        used: 0,
        taken: false,
    };
    while !so_far.taken && so_far.used < bytes.len() {
        so_far = step(held, so_far.len, bytes, so_far.used);
    }
    so_far
}

// The bytes from place `i` on, as far as one look at what is pending goes: behind nothing only `:` begins, behind CR only LF ends a message. Scanning
// goes on behind these bytes as it would have from `i` on.
#[tactic(auto, using(crate::proofs::Turns::fresh_same, crate::proofs::Turns::lf_same, crate::proofs::Turns::other_same, crate::proofs::Turns::open_told))]
fn step(held: &mut [u8; 512], n: usize, bytes: &[u8], i: usize) -> Scanned
    requires { i < length bytes.now }
    ensures onward { i < result.used }
    ensures within { result.used ≤ length bytes.now }
    ensures same { scan_on feeding (scan_in held.new result) (drop result.used bytes.now)
        ≡ scan_from feeding (record { bytes = held.old; len = n }) i (drop i bytes.now) }
{
    let cr = ended(held, n);
    if cr && bytes[i] == b'\n' {
        return Scanned {
            len: n,
            used: i + 1,
            taken: true,
        };
    }
    if cr || n == 0 {
        return Scanned {
            len: begin(held, bytes[i]),
            used: i + 1,
            taken: false,
        };
    }
    go_on(held, n, bytes, i)
}

// The digits from place `i` on that go on freely, and the byte behind them, where CR has not come. (A `match` on `bytes.get(at)` takes 12 instructions a
// message more.)
#[tactic(auto, using(crate::proofs::Turns::behind_within, crate::proofs::Turns::run_same, crate::proofs::Turns::behind_same))]
fn go_on(held: &mut [u8; 512], n: usize, bytes: &[u8], i: usize) -> Scanned
    requires le_n { 1 ≤ n }
    requires n_value { ended (record { bytes = held.old; len = n }) ≡ false }
    requires i_in_bounds { i < length bytes.now }
    ensures onward { i < result.used }
    ensures within { result.used ≤ length bytes.now }
    ensures same { scan_on feeding (scan_in held.new result) (drop result.used bytes.now)
        ≡ scan_from feeding (record { bytes = held.old; len = n }) i (drop i bytes.now) }
{
    let run = push_digits(held, n, &bytes[i..]);
    let at = i + run;
    if at == bytes.len() {
        return Scanned {
            len: n + run,
            used: at,
            taken: false,
        };
    }
    Scanned {
        len: feed(held, n + run, bytes[at]),
        used: at + 1,
        taken: false,
    }
}

// One byte, where the first `n` of `held` are pending and CR has not come.
#[tactic(auto, using(base::proofs::Tests::tests))]
fn feed(held: &mut [u8; 512], n: usize, b: u8) -> usize
    ensures { record { bytes = held.new; len = result }
        ≡ pick (goes_on (record { bytes = held.old; len = n }) b)
        (pushed (record { bytes = held.old; len = n }) b)
        (again (record { bytes = held.old; len = 0 }) b) }
{
    if goes_on(held, n, b) {
        push(held, n, b)
    } else {
        begin(held, b)
    }
}

// A byte that spoils what is pending is looked at again, as a beginning of its own.
#[tactic(auto, using(base::proofs::Tests::tests), unfolding(crate::specs::Scan::again, pending::specs::Held::emptied, pending::specs::Held::began_with))]
fn begin(held: &mut [u8; 512], b: u8) -> usize
    ensures { record { bytes = held.new; len = result } ≡ again (record { bytes = held.old; len = 0 }) b }
{
    if b == b':' { begin_with(held, b) } else { 0 }
}

// Whether the last byte pending is CR.
#[tactic(auto, using(base::proofs::Tests::tests), unfolding(crate::specs::Scan::ended))]
fn ended(held: &[u8; 512], n: usize) -> bool
    ensures { result ≡ ended (record { bytes = held.now; len = n }) }
{
    n != 0 && held[n.min(512) - 1] == b'\r'
}

// Whether `b` goes on, where CR has not come.
#[tactic(auto, using(crate::proofs::Turns::goes_cr, crate::proofs::Turns::goes_digit, crate::proofs::Turns::goes_none))]
fn goes_on(held: &[u8; 512], n: usize, b: u8) -> bool
    ensures { result ≡ goes_on (record { bytes = held.now; len = n }) b }
{
    if b == b'\r' {
        cr_fits(held, n)
    } else {
        b.is_ascii_hexdigit() && digit_fits(held, n, b)
    }
}
