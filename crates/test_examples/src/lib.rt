// Examples as the programs that run them read them: the lines of the input, each under its heading, and what a line hands to a call and
// wants of it.
#![tactic(auto)]

mod given;
mod headings;
pub mod notation;

pub use given::{pattern, wanted};
pub use headings::{call, run};
