// The time that passes, in ticks for a card: what a host's clock tells, turned into document 01's ticks of 1 to 250 tenths.
//
// `time_passed` says how many tenths there are to hand over, `hand_over` hands them over. A card is seen by its messages alone, so its tenths are early enough just before
// the next bytes, and none is lost or counted twice, however seldom or often the clock is read.
#![tactic(auto)]

ghost use Rattle.std.specs.Prelude.{◌≡◌};
ghost use Rattle.ticks.specs.Ticks.{passed_from, handed_over};

use drive::Plant;
use port::Numbers;

// A tenth of a second in the clock's milliseconds.
const TENTH: u64 = 100;

// The longest tick, in tenths.
const LONGEST: u64 = 250;

// The whole tenths that have passed, and the time up to which they are counted: the last time, when it is asked again.
#[derive(Clone, Copy)]
pub struct Passed {
    pub tenths: u64,
    pub last: u64,
}

// From the last time and the present one, in milliseconds. What is left of a tenth is kept: it counts with what passes next. Of a clock that goes back nothing has
// passed.
#[tactic(auto, unfolding(crate::specs::Ticks::passed_from))]
pub fn time_passed(last: u64, present: u64) -> Passed
    ensures { result ≡ passed_from last present }
{
    let time = present.saturating_sub(last);
    Passed {
        tenths: time / TENTH,
        last: present - time % TENTH,
    }
}

// So many tenths pass on a card whose port and plant are lent: in ticks of 250, and one of the rest.
pub fn hand_over(port: &mut Numbers, plant: &mut Plant, tenths: u64)
    ensures { record { port = port.new; plant = plant.new } ≡ handed_over tenths (record { port = port.old; plant = plant.old }) }
{
    for _ in 0..tenths / LONGEST {
        card::tick_in(port, plant, LONGEST as u32);
    }
    let rest = tenths % LONGEST;
    if rest > 0 {
        card::tick_in(port, plant, rest as u32);
    }
}
