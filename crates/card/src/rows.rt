// Rows: what becomes of each carried length over a stretch, from one pass over its letters.
mod carry;
mod ends;
mod passes;
mod segment;
mod start;

pub use ends::earlier;
pub use passes::{Summed, over};
pub use start::Rows;
