// Watch lists by value, for the programs that run examples: they have none to lend.
#![tactic(auto)]

mod lists;

pub use lists::List;
