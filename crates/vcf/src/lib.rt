// The stretch of a window, made from a reference and a file in Variant Call Format 4; and what a record takes of it.
#![tactic(auto)]

mod building;
mod measuring;
mod put;
pub mod records;
mod survey;

pub use building::build;
pub use measuring::{Measured, measure};
