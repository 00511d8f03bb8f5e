// The words of a command of the bench: `count` and `word` part a line, `between` and `between16` read a number, `spelt` reads HEX.
// docs/BENCH.md has the language.
#![tactic(auto)]

mod numbers;
mod spelling;
mod words;

pub use numbers::{between, between16};
pub use spelling::{first, spelt};
pub use words::{count, word};
