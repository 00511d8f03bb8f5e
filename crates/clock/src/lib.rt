// The machine's monotonic clock: what it answers, and the time in milliseconds that its answer tells.
//
// No contract can say what the clock tells; what is made of it is promised.
#![tactic(auto)]

ghost use Rattle.std.specs.Prelude.{◌≡◌, pos};
ghost use Rattle.clock.specs.Time.{Status, Nanos, natural_of, time_of};

use std::rt::Clock;

// What the clock answered: its status, 0 where it told the time and -1 where not, and the time. It is no Option of a time: `time_of` promises an answer
// for every status, and `monotonic` that its own is one of the two (must-fail/always_told).
#[derive(Clone, Copy)]
pub struct Told {
    pub status: i32,
    pub seconds: i64,
    pub nanoseconds: i64,
}

// What there is where the clock told no time.
const UNTOLD: Told = Told {
    status: -1,
    seconds: 0,
    nanoseconds: 0,
};

// More seconds than this, 31 million years, are no time.
const LAST_SECOND: u64 = 1_000_000_000_000_000;

// Asks the monotonic clock. Where it told the time, the nanoseconds are within one second.
pub fn monotonic(rt: &impl Clock) -> Told
    ensures status { Status result.status }
    ensures nanos { result.status ≡ pos 0 → Nanos result.nanoseconds }
{
    let Ok(time) = rt.monotonic() else {
        return UNTOLD;
    };
    let Ok(seconds) = i64::try_from(time.as_secs()) else {
        return UNTOLD;
    };
    Told {
        status: 0,
        seconds,
        nanoseconds: i64::from(time.subsec_nanos()),
    }
}

// The time in milliseconds that an answer of these numbers tells: none with a status other than 0, or with seconds past the last. A negative number counts as 0.
#[tactic(auto, using(base::proofs::Tests::tests), unfolding(crate::specs::Time::time_of))]
pub fn time_of(status: i32, seconds: i64, nanoseconds: i64) -> Option<u64>
    ensures { result ≡ time_of status seconds nanoseconds }
{
    let whole = natural(seconds);
    if status != 0 || LAST_SECOND < whole {
        return None;
    }
    Some(whole * 1000 + natural(nanoseconds) / 1_000_000)
}

// A number that is not negative, as it is; any other is 0.
fn natural(n: i64) -> u64
    ensures { result ≡ natural_of n }
{
    u64::try_from(n).unwrap_or(0)
}
