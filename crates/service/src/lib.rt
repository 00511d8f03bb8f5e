// What serving a message does, by either protocol, and what it comes to: `write` writes a row where that is permitted. A row is read by the crate `reading`.
#![tactic(auto)]

mod changes;

ghost use Rattle.std.specs.Prelude.{◌≡◌};
ghost use Rattle.service.specs.Write.{written};
ghost use Rattle.service.specs.Serving.{permitted};

use answers::Answer;
use drive::Plant;
use table::Row;

// A row is written where that is permitted. A refused write changes nothing.
pub fn write(plant: &mut Plant, row: Row, word: u32) -> Answer
    ensures plant { plant.new ≡ (written plant.old row.0 word).plant }
    ensures answer { result ≡ permitted (written plant.old row.0 word).permit }
{
    match changes::write(plant, row, word) {
        Ok(change) => Answer::Written(change),
        Err(refusal) => Answer::Refused(refusal),
    }
}
