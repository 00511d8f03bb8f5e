// What the drive tells of itself: whether a flag stands, whether it runs, and Drive Status, which is kept.
ghost use Rattle.std.specs.Prelude.{◌≡◌};
ghost use Rattle.base.specs.Choice.{pick};
ghost use Rattle.drive.specs.Status.{flag_stands, runs, status_word, righted};

use crate::plant::{DIN1, FLAGS, Plant};
use table::names::{DRIVE_STATUS, MODE, SCMD};

// The bits of Drive Status, each as its mask. The others are 0.
const READY: u32 = 0x0001;

const RUNNING: u32 = 0x0002;

const FAULT: u32 = 0x0008;

const INACTIVE: u32 = 0x0040;

const BUS: u32 = 0x0200;

// Whether a fault flag stands, 14 included.
#[tactic(auto, unfolding(crate::specs::Status::flag_stands))]
pub fn flag_stands(plant: &Plant) -> bool
    ensures { result ≡ flag_stands plant.now }
{
    plant[FLAGS] != 0
}

// Whether the drive runs: at MODE 2 by DIN1 while no flag stands, at MODE 3 by SCMD. MODE is a number and no enum here and elsewhere: it is a row's word, which masters write
// and read, and any word may stand there.
#[tactic(auto, unfolding(crate::specs::Status::runs, crate::specs::Status::active, crate::specs::Status::flag_stands))]
pub fn running(plant: &Plant) -> bool
    ensures { result ≡ runs plant.now }
{
    match plant[MODE] {
        2 => plant[DIN1] != 0 && plant[FLAGS] == 0,
        3 => plant[SCMD] != 0,
        _ => false,
    }
}

// A mask where the test holds, else 0.
fn bit(mask: u32, test: bool) -> u32
    ensures { result ≡ pick test mask 0 }
{
    if test { mask } else { 0 }
}

// Drive Status by the rules. Where DIN1 is active and no flag stands, nothing holds the drive: at MODE 3 it is ready, at MODE 2 it runs.
#[tactic(auto, using(crate::proofs::Laws::word_bus, crate::proofs::Laws::word_auto, crate::proofs::Laws::word_other))]
fn status_word(plant: &Plant) -> u32
    ensures { result ≡ status_word plant.now }
{
    let held = bit(FAULT, plant[FLAGS] != 0) | bit(INACTIVE, plant[DIN1] == 0);
    match plant[MODE] {
        3 => held | BUS | bit(READY, held == 0) | bit(RUNNING, plant[SCMD] != 0),
        2 => held | bit(RUNNING, held == 0),
        _ => held,
    }
}

// Makes the stored Drive Status right. Every change of the drive ends in this, and nothing else writes the word.
#[tactic(auto, unfolding(crate::specs::Status::righted))]
pub fn right_status(plant: &mut Plant)
    ensures { plant.new ≡ righted plant.old }
{
    plant[DRIVE_STATUS] = status_word(plant);
}
