// What a write is given: letters, cut into variants by the lengths and into segments by the counts.
#[derive(Clone, Copy)]
pub struct Given<'a> {
    pub letters: &'a [u8],
    pub lengths: &'a [u16],
    pub counts: &'a [u8],
}
