// Host events: what each makes of the plant.
ghost use Rattle.std.specs.Prelude.{◌≡◌};
ghost use Rattle.drive.specs.Events.{is_fault, raised, ended, port_fault, switched, with_active, with_measured};

use crate::faults::{FLAG_14, raise_flags};
use crate::plant::{CAUSES, DIN1, Plant};
use crate::status::right_status;
use table::names::*;

// A number that the host measures: FrqAct in 16 bits, I-rms and OpTime in 32.
#[derive(Clone, Copy)]
pub enum Measured {
    Frq(u16),
    Rms(u32),
    Optime(u32),
}

// Faults are numbered 1 to 13 and 16 to 23.
#[tactic(auto, unfolding(crate::specs::Events::is_fault))]
fn is_fault(n: u32) -> bool
    ensures { result ≡ is_fault n }
{
    matches!(n, 1..=13 | 16..=23)
}

// Raises fault n: its cause stands, its flag is raised, and the drive stops. Tells whether there is a fault of that number; where there is none, nothing changes.
// A bool and no `Result`: the definitions `raised` and `ended` tell `known`, and `card::event_outcome`, which takes it, is named in `docs/PROMISES.md`.
#[tactic(auto, using(crate::proofs::Laws::fault_small, crate::proofs::Laws::bit_is), unfolding(crate::specs::Events::raised))]
pub fn raise_fault(plant: &mut Plant, n: u32) -> bool
    ensures { record { plant = plant.new; known = result } ≡ raised n plant.old }
{
    if !is_fault(n) {
        return false;
    }
    let mask = 1u32 << n;
    let causes = plant[CAUSES] | mask;
    raise_flags(plant, mask);
    plant[CAUSES] = causes;
    true
}

// Ends the cause of fault n. Its flag stays. Tells whether there is a fault of that number, by a bool as `raise_fault` does.
#[tactic(auto, using(crate::proofs::Laws::fault_small, crate::proofs::Laws::bit_is), unfolding(crate::specs::Events::ended))]
pub fn end_cause(plant: &mut Plant, n: u32) -> bool
    ensures { record { plant = plant.new; known = result } ≡ ended n plant.old }
{
    if !is_fault(n) {
        return false;
    }
    let mask = 1u32 << n;
    plant[CAUSES] &= !mask;
    true
}

// What a time-out or a parity fault of a port does to the plant: at MODE 3 it raises flag 14.
#[tactic(auto, unfolding(crate::specs::Events::port_fault))]
pub fn port_fault(plant: &mut Plant)
    ensures { plant.new ≡ port_fault plant.old }
{
    if plant[MODE] == 3 {
        raise_flags(plant, FLAG_14);
    }
}

// DIN1 is stored, and SCMD is 0 where it is inactive.
#[tactic(auto, unfolding(crate::specs::Events::switched))]
fn switch(plant: &mut Plant, active: bool)
    ensures { plant.new ≡ switched active plant.old }
{
    plant[DIN1] = u32::from(active);
    if !active {
        plant[SCMD] = 0;
    }
}

// DIN1 becomes active, or inactive, which stops the drive.
#[tactic(auto, unfolding(crate::specs::Events::with_active))]
pub fn set_din1(plant: &mut Plant, active: bool)
    ensures { plant.new ≡ with_active active plant.old }
{
    switch(plant, active);
    right_status(plant);
}

// A number is measured anew.
#[tactic(auto, unfolding(crate::specs::Events::with_measured))]
pub fn measure(plant: &mut Plant, measured: Measured)
    ensures { plant.new ≡ with_measured measured plant.old }
{
    match measured {
        Measured::Frq(word) => {
            plant[FRQ_ACT] = u32::from(word);
        }
        Measured::Rms(word) => {
            plant[I_RMS] = word;
        }
        Measured::Optime(word) => {
            plant[OP_TIME] = word;
        }
    }
}
