// The settings table of document 01: which row a label on the line means, how wide the row is, and when it may be written.
//
// A row is known by its line in the table, counted from 0. The three kinds of label lead to it, and no other way leads from one kind to another
// but the address rule. What numbers a row allows is the crate `allowed`.
#![tactic(auto)]

mod find;
mod labels;
mod lines;
pub mod names;

pub use labels::{AdiNumber, ENumber, Register, Row};
pub use lines::{Allowed, Class};
