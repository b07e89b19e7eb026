// The first pass over a variant file: every record is checked against the window, and what the window's text needs is tallied.
mod needed;
mod scan;
mod surveying;

pub use needed::Needed;
pub use scan::Gathered;
pub use surveying::survey;
