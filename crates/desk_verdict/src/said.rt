// The lines that the release desk prints of what it decides.
mod put;

pub use put::{put_done, put_fault, put_hit, put_named, put_refused, put_standing};
