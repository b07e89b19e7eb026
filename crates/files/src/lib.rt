// Files as every program reads and writes them: whole, or the answer is that it was not so. A call that a signal interrupts is made
// again; any other failure is a failure, also after bytes have been read or written. The command line's words are here too.
#![tactic(auto)]

mod given;
mod names;
mod opening;
mod putting;
mod reading;
mod saying;
mod words;
mod writing;

pub use given::{given_to_append, given_to_read};
pub use names::folder;
pub use opening::opened;
pub use putting::written;
pub use reading::{fill, read_all, read_file, read_piece};
pub use saying::{Told, fail, say, say_line, say_words, tell};
pub use words::{WORD, count_words, word};
pub use writing::{write_all, write_aside, write_new};
