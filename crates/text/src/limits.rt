// The limits that the documents set.

// The most bases of a pattern.
pub const GREATEST_PATTERN: usize = 64;
// The most bytes of a stretch or a lone segment.
pub const GREATEST_STRETCH: usize = 32768;
// The most segments of a stretch.
pub const MOST_IN_STRETCH: usize = 10922;
// The most records of a watch list.
pub const MOST_WATCHED: usize = 32;
// What stands for a segment's number where nothing ends.
pub const NO_SEGMENT: usize = 4294967295;
