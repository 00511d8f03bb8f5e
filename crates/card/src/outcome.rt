// What a call comes to, and document 01's number for it.
ghost use Rattle.std.specs.Prelude.{◌≡◌};
ghost use Rattle.card.specs.Outcome.{outcome_number};

use answers::Answer;

// The outcome of a call: what was done, or the reason why nothing was.
#[derive(Clone, Copy)]
pub enum Outcome {
    // 0: a host event took place
    Done,
    // 0 to 9: a message was taken
    Served(Answer),
    // 10: buffer too short
    ShortBuffer,
    // 11: RTU length or CRC wrong
    BadFrame,
    // 12: host event number not allowed
    NoSuchEvent,
    // 15: nothing taken, bytes pending or dropped
    NothingTaken,
}

impl Outcome {
    // Document 01's number. A method and no `From`, as `Answer::number` is: `docs/PROMISES.md` names it, and at a call it says which number it is.
    pub fn number(self) -> u32
        ensures { result ≡ outcome_number self }
    {
        match self {
            Outcome::Done => 0,
            Outcome::Served(answer) => answer.number(),
            Outcome::ShortBuffer => 10,
            Outcome::BadFrame => 11,
            Outcome::NoSuchEvent => 12,
            Outcome::NothingTaken => 15,
        }
    }
}
