// The words of a line, with one space between them, and the numbers that they spell.

// What stands after the first such byte.
pub fn behind(line: &[u8], byte: u8) -> &[u8] {
    line.splitn(2, |other| *other == byte).nth(1).unwrap_or(&[])
}

// The word of that number; nothing where it is a dash or there is none.
pub fn word(line: &[u8], number: usize) -> &[u8] {
    match line.split(|byte| *byte == b' ').nth(number) {
        Some(word) if !word.starts_with(b"-") => word,
        _ => &[],
    }
}

// The number that digits spell, up to the first byte that is less than a digit.
pub fn spelt(word: &[u8]) -> u64 {
    word.iter()
        .take_while(|byte| b'0' <= **byte)
        .fold(0u64, |number, byte| {
            number.wrapping_mul(10).wrapping_add((*byte % 16) as u64)
        })
}

// The number that the word of that number spells.
pub fn number(line: &[u8], k: usize) -> usize {
    spelt(word(line, k)) as usize
}
