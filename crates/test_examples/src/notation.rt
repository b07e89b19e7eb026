// The notation of examples: the words of a line and the numbers that they spell, and bytes and variant files as they are written there.
mod bytes;
mod files;
mod words;

pub use bytes::{raw, stretch};
pub use files::file;
pub use words::{behind, number, word};
