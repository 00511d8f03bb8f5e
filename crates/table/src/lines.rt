// The lines of the table: how many registers each row has, and when it may be written. The column Allowed is read by the crate `allowed`.
ghost use Rattle.std.specs.Prelude.{◌≡◌};
ghost use Rattle.table.specs.Table.{line_at};

use crate::labels::Row;
use crate::names::*;

// "Run" rows are writable always, "Init" rows only when not running, "read" rows never.
#[derive(Clone, Copy, PartialEq, Eq)]
pub enum Class {
    Init,
    Run,
    OnlyRead,
}

// What the column Allowed says, for the definitions: `allowed::allows` asks the word itself. `Nothing` is `-`.
#[derive(Clone, Copy)]
pub enum Allowed {
    Between(i32, i32),
    // One of up to four numbers; the last stands again where there are fewer: the definition `these` says so, and an enum in fixed memory has no list.
    OneOf(i32, i32, i32, i32),
    // 0..I-limt−1
    BelowLimt,
    // I-magn+1..3000
    AboveMagn(i32),
    // Setpoint's ranges
    ByMode,
    Nothing,
}

impl Row {
    // How many registers the row has.
    pub fn width(self) -> u16
        ensures { result ≡ (line_at self.0).registers }
    {
        match self.0 {
            SPD_SCL_NUM | SPD_SCL_DEN | I_RMS | OP_TIME => 2,
            P_NOM..=DRIVE_STATUS => 1,
            _ => 0,
        }
    }

    // When the row may be written.
    pub fn class(self) -> Class
        ensures { result ≡ (line_at self.0).class }
    {
        match self.0 {
            P_NOM..=I_LIMT | MODE_SETTING => Class::Init,
            ACCEL..=SCMD => Class::Run,
            _ => Class::OnlyRead,
        }
    }
}
