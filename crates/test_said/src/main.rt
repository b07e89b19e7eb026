// Says words of up to 2,403 bytes, more than `files` puts together at once, by each of its calls that say words. tests/faults/run compares
// what comes out with its own.
#![tactic(auto)]

use files::{say_line, say_words, tell};
use std::fmt;

// So many rows of eight bytes, each with its number.
#[derive(Clone, Copy)]
struct Rows(u32);

impl fmt::Display for Rows {
    fn fmt<W: fmt::Write>(&self, f: &mut fmt::Formatter<W>) -> fmt::Result {
        for row in 0..self.0 {
            writeln!(f, "{row:07}")?;
        }
        Ok(())
    }
}

fn main(rt: HostRuntime) {
    for rows in [0, 1, 63, 64, 65, 300] {
        say_words(&rt, Rows(rows));
        say_line(&rt, Rows(rows));
        tell(&rt, b"rows", Rows(rows));
    }
    let letters = [b'x'; 1300];
    tell(&rt, b"letters", std::str::from_utf8(&letters).unwrap_or(""));
}
