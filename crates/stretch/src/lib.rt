// A stretch: its check, its readers and its write.
#![tactic(auto)]

mod checking;
mod places;
mod reader;
mod reading;
mod segment;
mod writing;

pub use checking::{Checked, check};
pub use reader::{Reader, read_from};
pub use reading::{Got, letters, read};
pub use writing::{Written, write};
