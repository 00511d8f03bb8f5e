// The rules of the column Allowed, for the word that stands for a number.
ghost use Rattle.std.specs.Prelude.{◌≡◌, [], ◌∷◌, ◌<◌, leb, pos};
ghost use Rattle.base.specs.Choice.{both};
ghost use Rattle.allowed.specs.Allowed.{about, below_limt, above_magn, setpoint_allows};
ghost use Rattle.allowed.specs.Words.{narrow, rank_of, listed};

// −1, as a 16-bit row's word.
pub(crate) const MINUS_1: u32 = 0xFFFF;

// lo..hi, neither below 0
pub(crate) fn between(lo: u32, hi: u32, word: u32) -> bool
    ensures { result ≡ both (leb lo word) (leb word hi) }
{
    (lo..=hi).contains(&word)
}

// One of these words.
#[tactic(auto, using(crate::proofs::Words::listed_any))]
pub(crate) fn one_of(words: &[u32], word: u32) -> bool
    ensures { result ≡ listed word words.now }
{
    words.contains(&word)
}

// Where a 16-bit row's word stands in the order of the numbers: two's complement, so 8000h comes first.
#[tactic(auto, unfolding(crate::specs::Words::rank_of))]
fn rank(word: u32) -> u32
    ensures { result ≡ rank_of word }
{
    (word % 0x10000 + 0x8000) % 0x10000
}

// −m..m
#[tactic(auto, using(crate::proofs::Words::too_wide, crate::proofs::Words::about_is))]
pub(crate) fn about_0(m: u32, word: u32) -> bool
    requires { m < 0x8000 }
    ensures { result ≡ narrow (about m) word }
{
    word < 0x10000 && between(0x8000 - m, 0x8000 + m, rank(word))
}

// 0..I-limt−1
#[tactic(auto, using(crate::proofs::Words::limt_below, crate::proofs::Words::limt_is))]
pub(crate) fn below_limt(limt: u32, word: u32) -> bool
    ensures { result ≡ narrow (below_limt limt) word }
{
    word < 0x8000 && rank(word) < rank(limt)
}

// I-magn+1..top
#[tactic(auto, using(crate::proofs::Words::too_wide, crate::proofs::Words::magn_above, crate::proofs::Words::magn_below))]
pub(crate) fn above_magn(magn: u32, top: u32, word: u32) -> bool
    requires { top < 0x8000 }
    ensures { result ≡ narrow (above_magn magn (pos top)) word }
{
    let at = rank(word);
    word < 0x10000 && rank(magn) < at && at <= 0x8000 + top
}

// Setpoint: ±1500 at Mode 0 or 1, ±200 at 2, ±9000 at 3.
#[tactic(auto, using(crate::proofs::Words::setpoint_at, crate::proofs::Words::setpoint_none), unfolding(crate::specs::Allowed::at_mode))]
pub(crate) fn setpoint(mode: u32, word: u32) -> bool
    ensures { result ≡ narrow (setpoint_allows mode) word }
{
    match mode % 0x10000 {
        0 | 1 => about_0(1500, word),
        2 => about_0(200, word),
        3 => about_0(9000, word),
        _ => false,
    }
}
