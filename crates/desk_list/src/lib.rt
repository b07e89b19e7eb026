// The list of withheld sequences, as the text of a file. A line is a label, a decimal number, and a sequence of 1 to 64 bases, parted
// by blanks; what stands after a `#` is a comment, and a line with nothing else is passed over. A line ends with a line feed, or a
// carriage return and one; every other byte is printable ASCII or a tab. A list is read line by line, where it stands, since nothing
// of it is copied.
#![tactic(auto)]

mod checking;
mod classes;
mod decimal;
mod reading;

pub use checking::{MOST, Unsound, check};
pub use decimal::told;
pub use reading::{Fault, Line, Withheld, line_at};
