// Start, restart and the host's events.
ghost use Rattle.std.specs.Prelude.{◌≡◌, ◌%◌};
ghost use Rattle.drive.specs.declared.events.Measured.TheVariants.{Frq, Rms, Optime};
ghost use Rattle.card.specs.State.{card_of, started};
ghost use Rattle.card.specs.Events.{fault_raised, cause_ended, din1_set, measured_set, parity_told, ticked};
ghost use Rattle.linecard.specs.Host.{protocol_of, active_of, Restarts, OnPlant, OnPort};

use drive::Plant;
use identity::Identity;
use port::Numbers;

// A fresh card with the identity that is given: 1 is Modbus RTU, 2 Modbus ASCII, any other number NFO serial. What was in the memory before does not count.
#[unsafe(no_mangle)]
pub extern "C" fn card_start_in(
    held: &mut [u8; 512],
    len: &mut usize,
    port: &mut Numbers,
    plant: &mut Plant,
    identity: &mut Identity,
    protocol: u32,
    given: &Identity,
)
    ensures { card_of held.new len.new port.new plant.new identity.new ≡ started (protocol_of protocol) given.now }
{
    linecard::events::card_start_in(held, len, port, plant, identity, protocol, given);
}

// The card restarts, and a SiAdr of 0 or 95 becomes 1. The array of the bytes pending stays as it is; there are none in it then.
#[unsafe(no_mangle)]
pub extern "C" fn card_restart_in(len: &mut usize, port: &mut Numbers, plant: &mut Plant)
    ensures { Restarts len.old port.old plant.old len.new port.new plant.new }
{
    linecard::events::card_restart_in(len, port, plant);
}

// The host raises fault n: 1 to 13 or 16 to 23, else 12.
#[unsafe(no_mangle)]
pub extern "C" fn card_raise_fault_in(plant: &mut Plant, n: u32) -> u32
    ensures { OnPlant (fault_raised n) plant.old plant.new result }
{
    linecard::events::card_raise_fault_in(plant, n)
}

// The host ends the cause of fault n: 1 to 13 or 16 to 23, else 12.
#[unsafe(no_mangle)]
pub extern "C" fn card_end_cause_in(plant: &mut Plant, n: u32) -> u32
    ensures { OnPlant (cause_ended n) plant.old plant.new result }
{
    linecard::events::card_end_cause_in(plant, n)
}

// DIN1 becomes inactive, by 0, or active, by any other number.
#[unsafe(no_mangle)]
pub extern "C" fn card_din1_in(plant: &mut Plant, active: u32) -> u32
    ensures { OnPlant (din1_set (active_of active)) plant.old plant.new result }
{
    linecard::events::card_din1_in(plant, active)
}

// FrqAct is measured: the low 16 bits of the word.
#[unsafe(no_mangle)]
pub extern "C" fn card_frq_act_in(plant: &mut Plant, word: u32) -> u32
    ensures { OnPlant (measured_set (Frq (word % 65536))) plant.old plant.new result }
{
    linecard::events::card_frq_act_in(plant, word)
}

// I-rms is measured.
#[unsafe(no_mangle)]
pub extern "C" fn card_i_rms_in(plant: &mut Plant, word: u32) -> u32
    ensures { OnPlant (measured_set (Rms word)) plant.old plant.new result }
{
    linecard::events::card_i_rms_in(plant, word)
}

// OpTime is measured.
#[unsafe(no_mangle)]
pub extern "C" fn card_op_time_in(plant: &mut Plant, word: u32) -> u32
    ensures { OnPlant (measured_set (Optime word)) plant.old plant.new result }
{
    linecard::events::card_op_time_in(plant, word)
}

// The host tells a parity fault of the port.
#[unsafe(no_mangle)]
pub extern "C" fn card_parity_fault_in(port: &mut Numbers, plant: &mut Plant) -> u32
    ensures { OnPort parity_told port.old plant.old port.new plant.new result }
{
    linecard::events::card_parity_fault_in(port, plant)
}

// So many tenths pass: 1 to 250, else 12.
#[unsafe(no_mangle)]
pub extern "C" fn card_tick_in(port: &mut Numbers, plant: &mut Plant, tenths: u32) -> u32
    ensures { OnPort (ticked tenths) port.old plant.old port.new plant.new result }
{
    linecard::events::card_tick_in(port, plant, tenths)
}
