// The writer of a stretch: the letters, lengths and counts that it is given, checked and then put as bytes.
#![tactic(auto)]

mod bytes;
mod given;
mod sound;
mod sums;
mod writing;

pub use writing::put_stretch;
