// Whether a row may be written now: document 01's refusals 3 to 7, in its order.
#![tactic(auto)]

ghost use Rattle.std.specs.Prelude.{◌≡◌};
ghost use Rattle.permit.specs.Refusals.{read_only, allowed, init_running, permitted};
ghost use Rattle.permit.specs.Permit.{permit_of};

use allowed::{Bounds, allows};
use answers::{Change, Refusal};
use drive::{DIN1, Plant};
use table::names::*;
use table::{Class, Row};

// The permitted write, where a row may be made to hold a word now, or the first of refusals 3 to 7, in this order.
#[tactic(auto, unfolding(crate::specs::Permit::permit_of))]
pub fn permit_of(plant: &Plant, row: Row, word: u32) -> Result<Change, Refusal>
    ensures { result ≡ permit_of plant.now row.0 word }
{
    if read_only(row) {
        return Err(Refusal::ReadOnly);
    }
    if !is_allowed(plant, row, word) {
        return Err(Refusal::NotAllowed);
    }
    if drive::flag_stands(plant) {
        return Err(Refusal::FlagStands);
    }
    if is_init_running(plant, row) {
        return Err(Refusal::Running);
    }
    if !is_permitted(plant, row, word) {
        return Err(Refusal::NotPermitted);
    }
    Ok(Change { row, word })
}

// Whether the row is never written.
#[tactic(auto, unfolding(crate::specs::Refusals::read_only))]
pub fn read_only(row: Row) -> bool
    ensures { result ≡ read_only row.0 }
{
    row.class() == Class::OnlyRead
}

// Whether the row allows the number that the word stands for.
#[tactic(auto, unfolding(crate::specs::Refusals::allowed, crate::specs::Refusals::bounds_of))]
fn is_allowed(plant: &Plant, row: Row, word: u32) -> bool
    ensures { result ≡ allowed plant.now row.0 word }
{
    let bounds = Bounds {
        magn: plant[I_MAGN],
        limt: plant[I_LIMT],
        mode: plant[MODE_SETTING],
    };
    allows(row, word, bounds)
}

// An Init row is not written while the drive runs.
#[tactic(auto, unfolding(crate::specs::Refusals::init_running))]
fn is_init_running(plant: &Plant, row: Row) -> bool
    ensures { result ≡ init_running plant.now row.0 }
{
    row.class() == Class::Init && drive::running(plant)
}

// SCMD is written only at MODE 3, and a run value only with DIN1 active.
#[tactic(auto, unfolding(crate::specs::Refusals::permitted, drive::specs::Status::active))]
fn is_permitted(plant: &Plant, row: Row, word: u32) -> bool
    ensures { result ≡ permitted plant.now row.0 word }
{
    row.0 != SCMD || (plant[MODE] == 3 && (word == 0 || plant[DIN1] != 0))
}
