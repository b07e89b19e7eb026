// The cases on which calls are compared, all drawn from a number: a pattern for a text, on either strand, and the text, whole or damaged.
#![tactic(auto)]

pub mod damaged;
pub mod drawn;
mod numbered;
mod patterns;

pub use numbered::{CASES, Case, STRETCHES, is_damaged, put_stretch, seed_of};
pub use patterns::{pattern, spoil};
