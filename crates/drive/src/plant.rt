// The state, at start and after a restart.
ghost use Rattle.std.specs.Prelude.{◌≡◌};
ghost use Rattle.drive.specs.Plant.{started};
ghost use Rattle.drive.specs.Events.{healed, restarted};

use crate::status::right_status;
use table::names::{MB_ADR, MODE, ROWS, SCMD, SI_ADR};

// Each row's word, two's complement, at its line in the table, and behind the rows the numbers that are no rows. Any words are a plant. The lines of Inv
// St, which is worked out, and of SioErr, which is the port's, hold nothing. It is an array and no struct: C lays it out so (`include/linecard.h`), and a row is one load or
// one store at its line (`told`, `applied`), where a struct would take a `match` on the row.
pub type Plant = [u32; 35];

// DIN1: 0 is inactive, any other number active.
pub const DIN1: usize = ROWS;

// The causes that stand: bit n is fault n.
pub const CAUSES: usize = ROWS + 1;

// The flags that stand: bit n is fault n.
pub const FLAGS: usize = ROWS + 2;

// Our own address: what MbAdr held at the last start or restart.
pub const STATION: usize = ROWS + 3;

// The column Start; DIN1 is inactive, no cause or flag stands, and our own address is MbAdr's start.
const START: Plant = [
    150, // P-Nom
    400, // U-Nom
    50, // f-Nom
    1500, // N-Nom
    80, // cosφ
    100, // I-magn
    1000, // I-limt
    50, // Accel
    50, // Retard
    0, // Mode
    0, // Fr-Min
    500, // Fr-Max
    0, // R-fix1
    1, // RegAmp
    128, // SiBaud
    0, // SiProt
    1, // SiAdr
    50, // SioTot
    1, // MbAdr
    1, // SpdScl num
    1, // SpdScl den
    0, // Setpoint
    1, // MODE
    0, // SCMD
    0, // Inv St, ack
    0, // Inv St
    0, // SioErr
    0, // FrqAct
    0, // I-rms
    0, // OpTime
    64, // Drive Status
    0, // DIN1
    0, // causes
    0, // flags
    1, // our own address
];

// A plant at start.
#[tactic(auto, unfolding(crate::specs::Plant::started, table::specs::Table::start_words, table::specs::Table::rows))]
pub fn start() -> Plant
    ensures { result ≡ started }
{
    START
}

// SiAdr after a restart: 1 where 0 or 95 was kept from before, for 0 is every card's address and 95 is broadcast. Any other number stays.
#[tactic(auto, unfolding(crate::specs::Events::healed))]
fn heal(address: u32) -> u32
    ensures { result ≡ healed address }
{
    match address {
        0 | 95 => 1,
        _ => address,
    }
}

// The plant after a restart: MODE 1, SCMD 0, the flags of the standing causes, MbAdr counts from now on, and a SiAdr of 0 or 95 becomes 1. The rest is kept.
#[tactic(auto, unfolding(crate::specs::Events::restarted))]
pub fn restart(plant: &mut Plant)
    ensures { plant.new ≡ restarted plant.old }
{
    let address = heal(plant[SI_ADR]);
    plant[STATION] = plant[MB_ADR];
    plant[SI_ADR] = address;
    plant[FLAGS] = plant[CAUSES];
    plant[SCMD] = 0;
    plant[MODE] = 1;
    right_status(plant);
}
