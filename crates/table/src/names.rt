// The rows by name: their lines in the table. The paper's Mode and MODE are `MODE_SETTING` and `MODE`.
//
// A name is a number and no variant of an enum: it is the row's place in the plant, whose array C lays out, and `allows`, `width`, `class` and `read` promise what they say of numbers past the table too.
pub const P_NOM: usize = 0;

pub const U_NOM: usize = 1;

pub const F_NOM: usize = 2;

pub const N_NOM: usize = 3;

pub const COS_PHI: usize = 4;

pub const I_MAGN: usize = 5;

pub const I_LIMT: usize = 6;

pub const ACCEL: usize = 7;

pub const RETARD: usize = 8;

pub const MODE_SETTING: usize = 9;

pub const FR_MIN: usize = 10;

pub const FR_MAX: usize = 11;

pub const R_FIX1: usize = 12;

pub const REG_AMP: usize = 13;

pub const SI_BAUD: usize = 14;

pub const SI_PROT: usize = 15;

pub const SI_ADR: usize = 16;

pub const SIO_TOT: usize = 17;

pub const MB_ADR: usize = 18;

pub const SPD_SCL_NUM: usize = 19;

pub const SPD_SCL_DEN: usize = 20;

pub const SETPOINT: usize = 21;

pub const MODE: usize = 22;

pub const SCMD: usize = 23;

pub const INV_ST_ACK: usize = 24;

pub const INV_ST: usize = 25;

pub const SIO_ERR: usize = 26;

pub const FRQ_ACT: usize = 27;

pub const I_RMS: usize = 28;

pub const OP_TIME: usize = 29;

pub const DRIVE_STATUS: usize = 30;

// How many rows there are.
pub const ROWS: usize = 31;
