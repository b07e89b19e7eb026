// What programs that run examples count with: the answers of the library's calls in one form, and how many were compared.
#![tactic(auto)]

mod answers;
mod calls;
mod counts;
mod reporting;

pub use answers::{Answer, held, held_in, lent};
pub use calls::{got, row};
pub use counts::{Difference, GROUPS, Tally};
pub use reporting::{report, tell};
