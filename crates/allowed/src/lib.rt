// Which numbers a row allows: the column Allowed of the settings table.
//
// I-magn and I-limt bound each other and Mode bounds Setpoint, so the words of these three go in with the word that is asked about.
#![tactic(auto)]

mod rules;

ghost use Rattle.std.specs.Prelude.{◌≡◌};
ghost use Rattle.allowed.specs.Allowed.{allowed_at};

use rules::{MINUS_1, about_0, above_magn, below_limt, between, one_of, setpoint};
use table::Row;
use table::names::*;

// What the allowed numbers of I-magn, I-limt and Setpoint depend on: the words of I-magn, I-limt and Mode.
#[derive(Clone, Copy)]
pub struct Bounds {
    pub magn: u32,
    pub limt: u32,
    pub mode: u32,
}

// Whether the row allows the number that a word stands for: the column Allowed, a line for a row. A word that is wider than the row stands for none. (The arms of rows that allow the same, joined,
// cost a write 6 instructions more.)
#[tactic(auto, using(crate::proofs::Words::row_range, crate::proofs::Words::row_wide, crate::proofs::Words::row_list, crate::proofs::Words::row_about, crate::proofs::Words::row_limt, crate::proofs::Words::row_magn, crate::proofs::Words::row_setpoint, crate::proofs::Words::past_scmd), unfolding(table::specs::Table::line_at, table::specs::Table::rows, crate::specs::Allowed::twos))]
pub fn allows(row: Row, word: u32, by: Bounds) -> bool
    ensures { result ≡ allowed_at row.0 by word }
{
    match row.0 {
        P_NOM => between(1, 10000, word),
        U_NOM => between(1, 1000, word),
        F_NOM => between(1, 500, word),
        N_NOM => between(5, 32765, word),
        COS_PHI => between(1, 100, word),
        I_MAGN => below_limt(by.limt, word),
        I_LIMT => above_magn(by.magn, 3000, word),
        ACCEL => between(2, 5000, word),
        RETARD => between(2, 5000, word),
        MODE_SETTING => between(0, 3, word),
        FR_MIN => between(0, 1500, word),
        FR_MAX => between(0, 1500, word),
        R_FIX1 => about_0(20000, word),
        REG_AMP => one_of(&[1, MINUS_1], word),
        SI_BAUD => one_of(&[16, 32, 64, 128], word),
        SI_PROT => one_of(&[0, 1], word),
        SI_ADR => between(1, 94, word),
        SIO_TOT => between(0, 250, word),
        MB_ADR => between(1, 247, word),
        SPD_SCL_NUM => between(1, 1000000, word),
        SPD_SCL_DEN => between(1, 1000000, word),
        SETPOINT => setpoint(by.mode, word),
        MODE => one_of(&[1, 2, 3], word),
        SCMD => one_of(&[0, 129, 257], word),
        _ => false,
    }
}
