// Host events. Each is a method that hands back the whole card and its outcome, 0 or 12. A tick and a port's fault touch plant and port: `tick_in` and `parity_fault_in`
// are lent the two where they lie.
ghost use Rattle.std.specs.Prelude.{◌≡◌};
ghost use Rattle.port.specs.Port.{Parity};
ghost use Rattle.card.specs.Events.{event_outcome, fault_raised, cause_ended, din1_set, measured_set, parity_told, port_faulted, counted, ticked_in, ticked};

use crate::outcome::Outcome;
use crate::state::Card;
use drive::{Measured, Plant};
use port::{Numbers, PARITY, SIOERR, SUM, TIME_OUT};
use table::names::SIO_TOT;

// The card after an event, and the event's outcome.
#[derive(Clone, Copy)]
pub struct After {
    pub card: Card,
    pub outcome: Outcome,
}

// The outcome of an event that named a fault: 0, or 12 where there is none of that number.
#[tactic(auto, unfolding(crate::specs::Events::event_outcome))]
pub fn event_outcome(known: bool) -> Outcome
    ensures { result ≡ event_outcome known }
{
    if known {
        Outcome::Done
    } else {
        Outcome::NoSuchEvent
    }
}

// A fault of the port: its bit in SioErr, and at MODE 3 flag 14.
#[tactic(auto, unfolding(crate::specs::Events::port_faulted))]
fn port_fault(port: &mut Numbers, plant: &mut Plant, bit: u32)
    ensures { record { port = port.new; plant = plant.new } ≡ port_faulted bit (record { port = port.old; plant = plant.old }) }
{
    port[SIOERR] |= bit;
    drive::port_fault(plant);
}

// The host tells a parity fault of the port.
pub fn parity_fault_in(port: &mut Numbers, plant: &mut Plant)
    ensures { record { port = port.new; plant = plant.new } ≡ port_faulted Parity (record { port = port.old; plant = plant.old }) }
{
    port_fault(port, plant, PARITY);
}

// The time sum with some tenths more, up to a limit. It is taken in 64 bits, so it cannot wrap.
#[tactic(auto, unfolding(crate::specs::Events::counted))]
fn count_to(port: &mut Numbers, plant: &mut Plant, limit: u32, tenths: u32)
    ensures { record { port = port.new; plant = plant.new } ≡ counted limit tenths (record { port = port.old; plant = plant.old }) }
{
    if limit == 0 {
        port[SUM] = 0;
        return;
    }
    let sum = u64::from(port[SUM]) + u64::from(tenths);
    if u64::from(limit) < sum {
        port[SUM] = 0;
        port_fault(port, plant, TIME_OUT);
        return;
    }
    port[SUM] = sum as u32;
}

// So many tenths pass on the port: 1 to 250, else 12. Where the sum goes above SioTot a time-out happens.
#[tactic(auto, unfolding(crate::specs::Events::ticked_in))]
pub fn tick_in(port: &mut Numbers, plant: &mut Plant, tenths: u32) -> Outcome
    ensures { record { core = record { port = port.new; plant = plant.new }; outcome = result } ≡ ticked_in tenths (record { port = port.old; plant = plant.old }) }
{
    if !(1..=250).contains(&tenths) {
        return Outcome::NoSuchEvent;
    }
    let limit = plant[SIO_TOT];
    count_to(port, plant, limit, tenths);
    Outcome::Done
}

impl Card {
    // The host raises fault n: 1 to 13 or 16 to 23, else 12.
    #[tactic(auto, unfolding(crate::specs::Events::fault_raised, crate::specs::Events::event_on))]
    pub fn raise_fault(mut self, n: u32) -> After
        ensures { result ≡ fault_raised n self }
    {
        let known = drive::raise_fault(&mut self.plant, n);
        After {
            card: self,
            outcome: event_outcome(known),
        }
    }

    // The host ends the cause of fault n: 1 to 13 or 16 to 23, else 12.
    #[tactic(auto, unfolding(crate::specs::Events::cause_ended, crate::specs::Events::event_on))]
    pub fn end_cause(mut self, n: u32) -> After
        ensures { result ≡ cause_ended n self }
    {
        let known = drive::end_cause(&mut self.plant, n);
        After {
            card: self,
            outcome: event_outcome(known),
        }
    }

    // DIN1 becomes active or inactive.
    #[tactic(auto, unfolding(crate::specs::Events::din1_set))]
    pub fn din1(mut self, active: bool) -> After
        ensures { result ≡ din1_set active self }
    {
        drive::set_din1(&mut self.plant, active);
        After {
            card: self,
            outcome: Outcome::Done,
        }
    }

    // FrqAct, I-rms or OpTime is measured.
    #[tactic(auto, unfolding(crate::specs::Events::measured_set))]
    pub fn measure(mut self, measured: Measured) -> After
        ensures { result ≡ measured_set measured self }
    {
        drive::measure(&mut self.plant, measured);
        After {
            card: self,
            outcome: Outcome::Done,
        }
    }

    // The host tells a parity fault: bit 1 of SioErr, and at MODE 3 flag 14.
    #[tactic(auto, unfolding(crate::specs::Events::parity_told))]
    pub fn parity_fault(mut self) -> After
        ensures { result ≡ parity_told self }
    {
        parity_fault_in(&mut self.port.numbers, &mut self.plant);
        After {
            card: self,
            outcome: Outcome::Done,
        }
    }

    // So many tenths pass: 1 to 250, else 12. Where the sum goes above SioTot a time-out happens.
    #[tactic(auto, unfolding(crate::specs::Events::ticked))]
    pub fn tick(mut self, tenths: u32) -> After
        ensures { result ≡ ticked tenths self }
    {
        let outcome = tick_in(&mut self.port.numbers, &mut self.plant, tenths);
        After {
            card: self,
            outcome,
        }
    }
}
