// From a label on the line to its row.
ghost use Rattle.std.specs.Prelude.{◌≡◌, ◌≤◌, ◌<◌};
ghost use Rattle.table.specs.Find.{row_of_e, row_of_adi, row_from, row_of_span};

use crate::labels::{AdiNumber, ENumber, Register, Row};
use crate::names::*;

impl ENumber {
    // The row with this E number. Below 20h and from A0h to BFh the numbers lie close together: a table for each place is small, one for all would be
    // mostly empty (docs/SPEED.md, "Left as it is on purpose").
    pub fn row(self) -> Option<Row>
        ensures { result ≡ row_of_e self.0 }
    {
        let e = self.0;
        match e {
            0x0000..=0x001F => row_below_20h(e),
            0x0020..=0x009F => row_below_a0h(e),
            0x00A0..=0x00BF => row_below_c0h(e),
            _ => row_from_c0h(e),
        }
    }
}

// E numbers 0000 to 001F.
#[tactic(auto, unfolding(crate::specs::Find::row_of_e, crate::specs::Table::rows, crate::specs::Find::first_row))]
fn row_below_20h(e: u16) -> Option<Row>
    requires { e < 0x0020 }
    ensures { result ≡ row_of_e e }
{
    match e {
        0x0008 => Some(Row(P_NOM)),
        0x0009 => Some(Row(U_NOM)),
        0x000F => Some(Row(F_NOM)),
        0x0010 => Some(Row(N_NOM)),
        0x0015 => Some(Row(COS_PHI)),
        0x0005 => Some(Row(I_MAGN)),
        0x0018 => Some(Row(I_LIMT)),
        0x001D => Some(Row(ACCEL)),
        0x001C => Some(Row(RETARD)),
        0x000D => Some(Row(FR_MIN)),
        0x000B => Some(Row(FR_MAX)),
        0x001E => Some(Row(SETPOINT)),
        _ => None,
    }
}

// E numbers 0020 to 009F.
#[tactic(auto, unfolding(crate::specs::Find::row_of_e, crate::specs::Table::rows, crate::specs::Find::first_row))]
fn row_below_a0h(e: u16) -> Option<Row>
    requires { (0x0020 ≤ e) × (e < 0x00A0) }
    ensures { result ≡ row_of_e e }
{
    match e {
        0x0030 => Some(Row(MODE_SETTING)),
        0x0039 => Some(Row(R_FIX1)),
        0x0052 => Some(Row(REG_AMP)),
        0x0029 => Some(Row(MODE)),
        _ => None,
    }
}

// E numbers 00A0 to 00BF.
#[tactic(auto, unfolding(crate::specs::Find::row_of_e, crate::specs::Table::rows, crate::specs::Find::first_row))]
fn row_below_c0h(e: u16) -> Option<Row>
    requires { (0x00A0 ≤ e) × (e < 0x00C0) }
    ensures { result ≡ row_of_e e }
{
    match e {
        0x00A8 => Some(Row(SI_BAUD)),
        0x00AA => Some(Row(SI_PROT)),
        0x00A9 => Some(Row(SI_ADR)),
        0x00AB => Some(Row(SIO_TOT)),
        0x00AD => Some(Row(SCMD)),
        0x00AC => Some(Row(SIO_ERR)),
        0x00B6 => Some(Row(FRQ_ACT)),
        _ => None,
    }
}

// E numbers from 00C0 on.
#[tactic(auto, unfolding(crate::specs::Find::row_of_e, crate::specs::Table::rows, crate::specs::Find::first_row))]
fn row_from_c0h(e: u16) -> Option<Row>
    requires { 0x00C0 ≤ e }
    ensures { result ≡ row_of_e e }
{
    match e {
        0x00E8 => Some(Row(INV_ST_ACK)),
        0x00E9 => Some(Row(INV_ST)),
        _ => None,
    }
}

impl AdiNumber {
    // The row with this ADI number: rows 301 to 322 stand in the order of their numbers. These are asked for first: as an arm of the match they made a message over RTU
    // 46 instructions longer.
    #[tactic(auto, unfolding(crate::specs::Find::row_of_adi, crate::specs::Table::rows, crate::specs::Find::first_row))]
    fn row(self) -> Option<Row>
        ensures { result ≡ row_of_adi self.0 }
    {
        let n = usize::from(self.0);
        if matches!(n, 301..=322) {
            return Some(Row(n - 301));
        }
        match n {
            34 => Some(Row(MODE)),
            35 => Some(Row(SCMD)),
            38 => Some(Row(INV_ST_ACK)),
            323 => Some(Row(SIO_ERR)),
            125 => Some(Row(FRQ_ACT)),
            120 => Some(Row(I_RMS)),
            39 => Some(Row(OP_TIME)),
            19 => Some(Row(DRIVE_STATUS)),
            _ => None,
        }
    }
}

impl Register {
    // The row whose first register this is: by the address rule, or Inv St at 02A5h.
    #[tactic(auto, using(crate::proofs::Lookup::from_adi, crate::proofs::Lookup::from_inv_st, crate::proofs::Lookup::from_none))]
    fn row(self) -> Option<Row>
        ensures { result ≡ row_from self.0 }
    {
        match self.adi() {
            Some(adi) => adi.row(),
            None if self.0 == 0x02A5 => Some(Row(INV_ST)),
            None => None,
        }
    }

    // The row that starts at this register and is `count` registers wide: "start at its first, count its width".
    #[tactic(auto, using(crate::proofs::Lookup::span_none, crate::proofs::Lookup::span_fits, crate::proofs::Lookup::span_other))]
    pub fn span(self, count: u16) -> Option<Row>
        ensures { result ≡ row_of_span self.0 count }
    {
        let Some(row) = self.row() else {
            return None;
        };
        (row.width() == count).then_some(row)
    }
}
