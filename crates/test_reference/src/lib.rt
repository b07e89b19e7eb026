// Document 01's rules done the plain way, with nothing of the library: a reader of stretches and a search, straight from the
// definitions, that programs compare the library's calls with.
#![tactic(auto)]

mod bytes;
mod occurrences;
pub mod places;
mod reader;

pub use bytes::Bytes;
pub use occurrences::{Ran, Step, run, through};
pub use reader::{Refusal, Sound, Wrong, pattern, stretch};
