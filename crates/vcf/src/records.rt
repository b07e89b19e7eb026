// The records of a file in Variant Call Format 4: its lines, their fields, the alleles of a field, positions, and where a record lies
// against a window of the reference.
pub mod heading;
pub mod pieces;
pub mod position;
pub mod record;
pub mod window;
