// The forms of the searches, the first hit and the feed for C: one number answers, and the results stand in lent blocks. Crate `cerantuh`
// gives them their C names.
mod block;
mod feeding;
mod first;
mod from;
mod searching;

pub use feeding::feed;
pub use first::first_hit;
pub use from::search_from;
pub use searching::{Search, search_either, search_strand};
