// The fault flags.
ghost use Rattle.std.specs.Prelude.{◌≡◌};
ghost use Rattle.drive.specs.Faults.{reflagged, halted, flag_raised, acknowledged, without14, only14, stopped};

use crate::plant::{CAUSES, FLAGS, Plant};
use crate::status::right_status;
use table::names::SCMD;

// The mask of flag 14, which a port's time-out or parity fault raises.
pub(crate) const FLAG_14: u32 = 0x4000;

// These flags stand, and no other. Where they did before, nothing changes.
#[tactic(auto, unfolding(crate::specs::Faults::reflagged))]
fn set_flags(plant: &mut Plant, flags: u32)
    ensures { plant.new ≡ reflagged flags plant.old }
{
    if plant[FLAGS] != flags {
        plant[FLAGS] = flags;
        right_status(plant);
    }
}

// These flags stand, and SCMD is 0.
#[tactic(auto, unfolding(crate::specs::Faults::halted))]
fn halt(plant: &mut Plant, flags: u32)
    ensures { plant.new ≡ halted flags plant.old }
{
    plant[FLAGS] = flags;
    plant[SCMD] = 0;
    right_status(plant);
}

// Raises the flags of a mask, which stops the drive.
#[tactic(auto, unfolding(crate::specs::Faults::flag_raised))]
pub(crate) fn raise_flags(plant: &mut Plant, mask: u32)
    ensures { plant.new ≡ flag_raised mask plant.old }
{
    let raised = plant[FLAGS] | mask;
    halt(plant, raised);
}

// Clears the flags whose cause has ended, but not 14.
#[tactic(auto, unfolding(crate::specs::Faults::acknowledged))]
pub fn acknowledge(plant: &mut Plant)
    ensures { plant.new ≡ acknowledged plant.old }
{
    let standing = plant[FLAGS] & (plant[CAUSES] | FLAG_14);
    set_flags(plant, standing);
}

// Clears flag 14.
#[tactic(auto, unfolding(crate::specs::Faults::without14))]
pub fn clear_14(plant: &mut Plant)
    ensures { plant.new ≡ without14 plant.old }
{
    let others = plant[FLAGS] & !FLAG_14;
    set_flags(plant, others);
}

// Whether 14 is the only flag.
#[tactic(auto, unfolding(crate::specs::Faults::only14))]
pub fn only_14(plant: &Plant) -> bool
    ensures { result ≡ only14 plant.now }
{
    plant[FLAGS] == FLAG_14
}

// What the broadcast stop does: flag 14 is cleared, SCMD is 0.
#[tactic(auto, unfolding(crate::specs::Faults::stopped))]
pub fn stop(plant: &mut Plant)
    ensures { plant.new ≡ stopped plant.old }
{
    let others = plant[FLAGS] & !FLAG_14;
    halt(plant, others);
}
