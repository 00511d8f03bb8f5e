// What serving a message comes to, by any protocol, and document 01's number for it.
#![tactic(auto)]

ghost use Rattle.std.specs.Prelude.{◌≡◌};
ghost use Rattle.answers.specs.Answer.{refusal_number, answer_number};

use identity::Part;
use table::Row;

// Why a message is refused: document 01's refusals 2 to 9.
#[derive(Clone, Copy)]
pub enum Refusal {
    // 2: no such row, register span or object
    NoRow,
    // 3: row is read-only
    ReadOnly,
    // 4: value not allowed
    NotAllowed,
    // 5: a fault flag stands
    FlagStands,
    // 6: Init row, running
    Running,
    // 7: SCMD not permitted
    NotPermitted,
    // 8: value not hex; bad length or count
    Malformed,
    // 9: unknown function
    NoFunction,
}

// A row and the word that it is to hold.
#[derive(Clone, Copy)]
pub struct Change {
    pub row: Row,
    pub word: u32,
}

// What was done, or the reason why nothing was: document 01's column of outcomes. It is one enum and no `Result<Deed, Reason>`: that was tried
// and proved, and is no plainer. Each refusal was `Err(Reason::Refused(Refusal::NoRow))`, and `?`, which a `Result` is for, stands nowhere: document 01 asks for `let .. else`.
#[derive(Clone, Copy)]
pub enum Answer {
    // 0: the row told this word
    Told(Row, u32),
    // 0: the row holds this word now
    Written(Change),
    // 0: this part of the identity was told
    Identified(Part),
    // 1: other address, or broadcast read
    NotOurs,
    // 2 to 9
    Refused(Refusal),
}

// Document 01's number of a refusal.
impl From<Refusal> for u32 {
    ghost from_gives = { λ refusal number. number ≡ refusal_number refusal };

    fn from(refusal: Refusal) -> u32 {
        match refusal {
            Refusal::NoRow => 2,
            Refusal::ReadOnly => 3,
            Refusal::NotAllowed => 4,
            Refusal::FlagStands => 5,
            Refusal::Running => 6,
            Refusal::NotPermitted => 7,
            Refusal::Malformed => 8,
            Refusal::NoFunction => 9,
        }
    }
}

impl Answer {
    // Document 01's number. It is a method and no `From`: `docs/PROMISES.md` names it, as it does `Outcome::number`, and a call says which number it is.
    pub fn number(self) -> u32
        ensures { result ≡ answer_number self }
    {
        match self {
            Answer::Told(_, _) | Answer::Written(_) | Answer::Identified(_) => 0,
            Answer::NotOurs => 1,
            Answer::Refused(refusal) => u32::from(refusal),
        }
    }
}
