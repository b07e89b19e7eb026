// The watch list: up to 32 withheld sequences with labels, looked for in one stretch.
#![tactic(auto)]

mod answers;
mod list;
mod sight;
mod watched;

pub use answers::{Found, Listed};
pub use list::{first, mark};
pub use watched::Watched;
