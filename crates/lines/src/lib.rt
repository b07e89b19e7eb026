// The lines that programs print, put into a buffer: bytes, numbers, lines of a word and a number, and the lines of a search's answer.
#![tactic(auto)]

mod answer;
pub mod input;
mod numbered;
mod put;
pub mod strands;
mod version;

pub use answer::{MOST_BYTES, put_refusal, screened};
pub use numbered::{is_numbered, put_numbered};
pub use put::{put_bytes, put_line, put_number};
pub use version::put_version;
