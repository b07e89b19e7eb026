// A text's manifest: which files its stretches are, in order, and the digest of each. A manifest is lines, each ended by a line feed:
// a first line that says what it is, comments, a line for each stretch, the counts of all of them, and the digest of all before it.
// It is read line by line, where it stands, since nothing of it is copied.
#![tactic(auto)]

mod checking;
mod classes;
mod putting;
mod reading;
mod space;

pub use checking::{Unsound, check, counts_stand, vouches};
pub use classes::is_name;
pub use putting::{put_digest, put_end, put_head, put_stretch};
pub use reading::{Line, Stretch, Wrong, line_at, next_stretch};
pub use space::{MOST_BYTES, room};
