// Start, restart and the host's events.
ghost use Rattle.std.specs.Prelude.{◌≡◌, ◌%◌};
ghost use Rattle.drive.specs.declared.events.Measured.TheVariants.{Frq, Rms, Optime};
ghost use Rattle.card.specs.State.{card_of, started};
ghost use Rattle.card.specs.Events.{fault_raised, cause_ended, din1_set, measured_set, parity_told, ticked};
ghost use Rattle.linecard.specs.Host.{protocol_of, active_of, Restarts, OnPlant, OnPort};

use card::Protocol;
use drive::{Measured, Plant};
use identity::Identity;
use port::Numbers;

// A fresh card with the identity that is given: 1 is Modbus RTU, 2 Modbus ASCII, any other number NFO serial. What was in the memory before does not count.
#[tactic(auto, unfolding(crate::specs::Host::protocol_of, card::specs::State::started, pending::specs::Held::empty))]
pub fn card_start_in(
    held: &mut [u8; 512],
    len: &mut usize,
    port: &mut Numbers,
    plant: &mut Plant,
    identity: &mut Identity,
    protocol: u32,
    given: &Identity,
)
    ensures { card_of held.new len.new port.new plant.new identity.new ≡ started (protocol_of protocol) given.now }
{
    *held = [0u8; 512];
    *len = 0;
    *port = card::fresh_port(Protocol::from(protocol));
    *plant = drive::start();
    *identity = *given;
}

// The card restarts, and a SiAdr of 0 or 95 becomes 1. The array of the bytes pending stays as it is; there are none in it then.
#[tactic(auto, unfolding(card::specs::State::restarted, pending::specs::Held::emptied))]
pub fn card_restart_in(len: &mut usize, port: &mut Numbers, plant: &mut Plant)
    ensures { Restarts len.old port.old plant.old len.new port.new plant.new }
{
    *len = 0;
    *port = card::restarted_port(*port);
    drive::restart(plant);
}

// The host raises fault n: 1 to 13 or 16 to 23, else 12.
#[tactic(auto, unfolding(card::specs::Events::fault_raised, card::specs::Events::event_on))]
pub fn card_raise_fault_in(plant: &mut Plant, n: u32) -> u32
    ensures { OnPlant (fault_raised n) plant.old plant.new result }
{
    card::event_outcome(drive::raise_fault(plant, n)).number()
}

// The host ends the cause of fault n: 1 to 13 or 16 to 23, else 12.
#[tactic(auto, unfolding(card::specs::Events::cause_ended, card::specs::Events::event_on))]
pub fn card_end_cause_in(plant: &mut Plant, n: u32) -> u32
    ensures { OnPlant (cause_ended n) plant.old plant.new result }
{
    card::event_outcome(drive::end_cause(plant, n)).number()
}

// DIN1 becomes inactive, by 0, or active, by any other number.
#[tactic(auto, unfolding(card::specs::Events::din1_set, crate::specs::Host::active_of))]
pub fn card_din1_in(plant: &mut Plant, active: u32) -> u32
    ensures { OnPlant (din1_set (active_of active)) plant.old plant.new result }
{
    drive::set_din1(plant, active != 0);
    0
}

// FrqAct is measured: the low 16 bits of the word.
#[tactic(auto, unfolding(card::specs::Events::measured_set))]
pub fn card_frq_act_in(plant: &mut Plant, word: u32) -> u32
    ensures { OnPlant (measured_set (Frq (word % 65536))) plant.old plant.new result }
{
    drive::measure(plant, Measured::Frq((word % 65536) as u16));
    0
}

// I-rms is measured.
#[tactic(auto, unfolding(card::specs::Events::measured_set))]
pub fn card_i_rms_in(plant: &mut Plant, word: u32) -> u32
    ensures { OnPlant (measured_set (Rms word)) plant.old plant.new result }
{
    drive::measure(plant, Measured::Rms(word));
    0
}

// OpTime is measured.
#[tactic(auto, unfolding(card::specs::Events::measured_set))]
pub fn card_op_time_in(plant: &mut Plant, word: u32) -> u32
    ensures { OnPlant (measured_set (Optime word)) plant.old plant.new result }
{
    drive::measure(plant, Measured::Optime(word));
    0
}

// The host tells a parity fault of the port.
#[tactic(auto, unfolding(card::specs::Events::parity_told))]
pub fn card_parity_fault_in(port: &mut Numbers, plant: &mut Plant) -> u32
    ensures { OnPort parity_told port.old plant.old port.new plant.new result }
{
    card::parity_fault_in(port, plant);
    0
}

// So many tenths pass: 1 to 250, else 12.
#[tactic(auto, unfolding(card::specs::Events::ticked))]
pub fn card_tick_in(port: &mut Numbers, plant: &mut Plant, tenths: u32) -> u32
    ensures { OnPort (ticked tenths) port.old plant.old port.new plant.new result }
{
    card::tick_in(port, plant, tenths).number()
}
