// What Inv St tells.
ghost use Rattle.std.specs.Prelude.{◌≡◌};
ghost use Rattle.drive.specs.Flags.{lowest_of};
ghost use Rattle.drive.specs.Status.{status_of};

use drive::{FLAGS, Plant};
use table::names::MODE;

// Inv St: the lowest flagged number, else the number of the MODE, standing or running.
#[tactic(auto, unfolding(drive::specs::Status::flag_stands, drive::specs::Status::status_of))]
pub(crate) fn status_of(plant: &Plant) -> u32
    ensures { result ≡ status_of plant.now }
{
    if plant[FLAGS] != 0 {
        return lowest(plant[FLAGS]);
    }
    match plant[MODE] {
        2 if drive::running(plant) => 34,
        2 => 33,
        3 if drive::running(plant) => 38,
        3 => 37,
        _ => 24,
    }
}

// The lowest flagged number, or 32 where nothing is flagged: the processor's count of the zeros below it.
#[tactic(auto, using(drive::proofs::Masks::zeros_lowest), unfolding(drive::specs::Flags::lowest_of))]
fn lowest(flags: u32) -> u32
    ensures { result ≡ lowest_of flags }
{
    flags.trailing_zeros()
}
