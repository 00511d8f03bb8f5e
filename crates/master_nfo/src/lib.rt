// The master side of NFO serial: `enquiry` and `select` write a request, `read_reply` reads what comes back.
// The bytes of each stand in specs/, as document 01 draws them.
#![tactic(auto)]

mod replies;
mod requests;

pub use replies::{Reply, number_of, read_reply};
pub use requests::{enquiry, select};
