// Reading a row: the word that it tells, and what the read does.
//
// A row tells the word that stands at its line in the plant, but for Inv St, which is worked out, and SioErr, which is the port's.
#![tactic(auto)]

mod status;

ghost use Rattle.std.specs.Prelude.{◌≡◌};
ghost use Rattle.reading.specs.Read.{stored, told};

use drive::Plant;
use port::{Numbers, SIOERR};
use status::status_of;
use table::Row;
use table::names::*;

// Reads a row: tells its word, then acknowledges where the row is Inv St, ack, and zeroes SioErr and flag 14 where it is SioErr. Any other row changes nothing.
#[tactic(auto, unfolding(crate::specs::Read::told))]
pub fn read(plant: &mut Plant, port: &mut Numbers, row: Row) -> u32
    ensures { record { plant = plant.new; port = port.new; word = result } ≡ told plant.old port.old row.0 }
{
    match row.0 {
        INV_ST_ACK => {
            let word = status_of(plant);
            drive::acknowledge(plant);
            word
        }
        INV_ST => status_of(plant),
        SIO_ERR => {
            let word = port[SIOERR];
            port[SIOERR] = 0;
            drive::clear_14(plant);
            word
        }
        n => stored_at(plant, n),
    }
}

// The word at a row's line. A row past the table tells 0. The test is of the table's end and no `get`: behind the rows the array goes on with numbers that are no rows.
#[tactic(auto, unfolding(crate::specs::Read::stored))]
fn stored_at(plant: &Plant, row: usize) -> u32
    ensures { result ≡ stored plant.now row }
{
    if row < ROWS { plant[row] } else { 0 }
}
