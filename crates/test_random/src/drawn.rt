// Texts that look random, drawn from a number: the same number gives the same again. The letters that they are made of serve patterns too.
mod masks;
mod numbers;
mod puts;
mod texts;

pub use masks::{any_letter, stray};
pub use numbers::{below, seed};
pub use puts::{letter, put_letters};
pub use texts::{segments, stretch, text};
