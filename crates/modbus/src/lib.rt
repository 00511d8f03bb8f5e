// The data unit of Modbus, which RTU and ASCII share: `request_of` takes a request's apart, `asked_of` one of the four functions alone.
// `put_unit` writes an answer's, and `put_body` the address with it.
#![tactic(auto)]

mod copies;
mod identified;
mod replies;
mod requests;

pub use replies::{Answer, put_body, put_unit};
pub use requests::{Request, Span, asked_of, request_of};
