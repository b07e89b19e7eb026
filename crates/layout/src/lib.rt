// How a stretch is laid out in bytes: numbers, the questions that are asked of the bytes, the walks over a stretch and over a segment that
// ask them, the test for repetition, how many bytes the parts of a text take, and counts and variants put into a buffer.
#![tactic(auto)]

mod count;
pub mod cursor;
pub mod number;
pub mod pieces;
mod repetition;
mod sizes;
mod variant;
pub mod walk;

pub use count::{put_segments, put_variants};
pub use sizes::{
    FIRST_LETTER, FIRST_SEGMENT, FIRST_VARIANT, LEAST_SEGMENT, segment_bytes, text_bytes,
};
pub use variant::{after_variant, put_variant};
