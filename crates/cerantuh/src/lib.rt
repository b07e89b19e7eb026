// The C forms of the searches, the first hit and the feed, for the release tool. include/cerantuh.h is their C side.
#![tactic(auto)]

mod feeding;
mod first;
mod forms;
mod from;
mod searching;

pub use feeding::{cerantuh_feed, cerantuh_feed_opposite};
pub use first::{cerantuh_first, cerantuh_first_opposite};
pub use from::{cerantuh_search_from, cerantuh_search_from_opposite};
pub use searching::{
    cerantuh_search_bits, cerantuh_search_bits_opposite, cerantuh_search_borders,
    cerantuh_search_borders_opposite, cerantuh_search_either,
};
