// The files of a text that a program writes: its stretches, numbered from 1, and the manifest that is the text, once all of them are
// written. Nothing is overwritten. What cannot be written is said on standard error.
#![tactic(auto)]

mod built;

pub use built::{Built, is_nameable};
