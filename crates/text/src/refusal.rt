// Refusals: the documents' numbers, and the place that goes with a number. Accepted is number 0 at place 0.
#[derive(Clone, Copy)]
pub struct Refusal {
    pub number: u64,
    pub place: usize,
}

// The pattern is empty.
pub const PATTERN_EMPTY: u64 = 1;
// The pattern is over 64 bases.
pub const PATTERN_LONG: u64 = 2;
// A pattern byte is not A, C, G, T.
pub const PATTERN_BYTE: u64 = 3;
// A stretch or lone segment is over 32,768 bytes, or a write would be.
pub const STRETCH_LONG: u64 = 4;
// The bytes end inside a count or length, or before the letters a length states.
pub const BYTES_END: u64 = 5;
// A variant count is 0.
pub const NO_VARIANTS: u64 = 6;
// A letter is not A, C, G, T or N, in either case.
pub const WRONG_LETTER: u64 = 7;
// A variant is equal to an earlier one of its segment.
pub const REPEATED: u64 = 8;
// Bytes stand after the last segment.
pub const BYTES_LEFT: u64 = 9;
// The mark buffer is shorter than the segment count, or a C result block is too short.
pub const BUFFER_SHORT: u64 = 10;
// A card is malformed.
pub const CARD_MALFORMED: u64 = 11;
// The cards are of different patterns.
pub const PATTERNS_DIFFER: u64 = 12;
// The joined segments are above 4,294,967,294.
pub const JOIN_LONG: u64 = 13;
// In a write, the counts don't sum to the number of lengths, or the lengths to the number of letters.
pub const WRITE_SUMS: u64 = 14;
// In a write, the output buffer is too short.
pub const OUTPUT_SHORT: u64 = 15;
// There are more than 10,922 segments.
pub const SEGMENTS_MANY: u64 = 16;
// A state has bit 0 clear or a bit from m up.
pub const STATE_WRONG: u64 = 17;
// A variant file does not begin as one does.
pub const FILE_HEADING: u64 = 18;
// A record of a variant file is wrong.
pub const RECORD_WRONG: u64 = 19;
// A watch list has more than 32 records.
pub const LIST_LONG: u64 = 20;
// The pattern of a record of a watch list is wrong.
pub const WATCHED_WRONG: u64 = 21;
// A window begins at position 0, or has a base beyond the last position.
pub const WINDOW_PLACE: u64 = 28;
