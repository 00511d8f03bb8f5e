// What a permitted write changes. A refused write changes nothing.
ghost use Rattle.std.specs.Prelude.{◌≡◌};
ghost use Rattle.service.specs.Write.{followed, applied, written};

use answers::{Change, Refusal};
use drive::Plant;
use permit::permit_of;
use table::Row;
use table::names::*;

// Writes a row where that is permitted, and tells what was written or the refusal. The permit is taken apart by `let .. else`, as document 01 asks, and not by `?`.
#[tactic(auto, unfolding(crate::specs::Write::written))]
pub(crate) fn write(plant: &mut Plant, row: Row, word: u32) -> Result<Change, Refusal>
    ensures { record { plant = plant.new; permit = result } ≡ written plant.old row.0 word }
{
    let permit = permit_of(plant, row, word);
    let Ok(change) = permit else {
        return permit;
    };
    apply(plant, change);
    permit
}

// Makes a row hold a word, and where it is a different one, Drive Status right. Rows past SCMD are never written.
#[tactic(auto, unfolding(crate::specs::Write::applied))]
fn apply(plant: &mut Plant, change: Change)
    ensures { plant.new ≡ applied change.row.0 change.word plant.old }
{
    let n = change.row.0;
    if SCMD < n {
        return;
    }
    let before = plant[n];
    plant[n] = change.word;
    if before != change.word {
        follow(plant, n);
        drive::right_status(plant);
    }
}

// What follows from a row that holds a different word now: of Mode, Setpoint 0; of MODE, SCMD 0.
#[tactic(auto, unfolding(crate::specs::Write::followed))]
fn follow(plant: &mut Plant, row: usize)
    ensures { plant.new ≡ followed row plant.old }
{
    match row {
        MODE_SETTING => plant[SETPOINT] = 0,
        MODE => plant[SCMD] = 0,
        _ => {}
    }
}
