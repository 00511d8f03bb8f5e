// The pairs of digits behind `:`, summed: at CR, and for the two digits of an LRC that the limit leaves room for.
ghost use Rattle.std.specs.Prelude.{◌≡◌, ◌≤◌, take};
ghost use Rattle.hex_pairs.specs.Hex.{bytes_of};
ghost use Rattle.checks.specs.Lrc.{lrc_of};
ghost use Rattle.ascii.specs.Ascii.{bytes_in};
ghost use Rattle.ascii_scan.specs.Scan.{digit_fits, cr_fits};
ghost use Rattle.ascii_scan.specs.Pairs.{pairs_of};

// How many bytes pairs of digits spell, and these added modulo 256.
#[derive(Clone, Copy)]
pub(crate) struct Pairs {
    count: usize,
    sum: u8,
}

// Whether a hex digit goes on behind the `n` bytes pending: freely up to the 508th; the 509th and the 510th are the LRC's digits, in
// either letters.
#[tactic(auto, using(base::proofs::Tests::tests), unfolding(crate::specs::Scan::digit_fits))]
pub(crate) fn digit_fits(held: &[u8; 512], n: usize, b: u8) -> bool
    ensures { result ≡ digit_fits n (lrc_of (bytes_in (take n held.now))) b }
{
    match n {
        509 => hex_pairs::capital_of(b) == hex_pairs::digit_of(lrc_in(held, n) / 16),
        510 => hex_pairs::capital_of(b) == hex_pairs::digit_of(lrc_in(held, n) % 16),
        _ => 0 < n && n < 509,
    }
}

// Whether CR goes on behind the `n` bytes pending: `:` and 3 to 255 pairs, whose bytes add to 0.
#[tactic(auto, using(crate::proofs::Summed::twice_fits, crate::proofs::Summed::cr_under, crate::proofs::Summed::cr_over, crate::proofs::Summed::cr_unpaired, crate::proofs::Summed::cr_paired))]
pub(crate) fn cr_fits(held: &[u8; 512], n: usize) -> bool
    ensures { result ≡ cr_fits n (bytes_in (take n held.now)) }
{
    if n < 7 || 511 < n {
        return false;
    }
    let p = pairs_in(held, n);
    n == 2 * p.count + 1 && p.sum == 0
}

// The LRC of the bytes pending.
#[tactic(auto, using(crate::proofs::Summed::lrc_told))]
fn lrc_in(held: &[u8; 512], n: usize) -> u8
    requires le_n { 1 ≤ n }
    requires n_bound { n ≤ 512 }
    ensures { result ≡ lrc_of (bytes_in (take n held.now)) }
{
    checks::lrc(pairs_in(held, n).sum)
}

// The pairs pending.
#[tactic(auto, using(crate::proofs::Summed::pairs_part))]
fn pairs_in(held: &[u8; 512], n: usize) -> Pairs
    requires le_n { 1 ≤ n }
    requires n_bound { n ≤ 512 }
    ensures { result ≡ pairs_of (bytes_in (take n held.now)) }
{
    add_pairs(&held[1..n])
}

// The pairs of a slice, up to the first that spells no byte. A `for` over the pairs takes 27 instructions a message more, and the chain's closure knows
// no bound of the count, so that it is added with wrapping, which a slice is too short for.
fn add_pairs(digits: &[u8]) -> Pairs
    ensures { result ≡ pairs_of (bytes_of digits.now) }
{
    let (pairs, _) = digits.as_chunks::<2>();
    pairs
        .iter()
        .map_while(|&[high, low]| hex_pairs::pair_value(high, low))
        .fold(
            Pairs { count: 0, sum: 0 },
            |so_far, byte| Pairs {
                count: so_far.count.wrapping_add(1),
                sum: so_far.sum.wrapping_add(byte),
            },
        )
}
