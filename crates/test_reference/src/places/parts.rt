// What stands at a place of a stretch. After its end stand zeros, and a part that does not lie within is empty.
ghost use Rattle.std.specs.Prelude.{◌≡◌, slice_index};

// n bytes from a place on.
pub fn part(bytes: &[u8], start: usize, n: usize) -> &[u8] {
    match bytes.get(start..) {
        Some(rest) => rest.get(..n).unwrap_or(&[]),
        None => &[],
    }
}

// The byte at a place.
pub fn byte_at(bytes: &[u8], at: usize) -> u8
    ensures { result ≡ slice_index bytes.now at }
{
    bytes.get(at).copied().unwrap_or(0)
}

// The number of two bytes, low byte first.
pub fn word_at(bytes: &[u8], at: usize) -> u16 {
    u16::from_le_bytes([byte_at(bytes, at), byte_at(bytes, at.wrapping_add(1))])
}

// The letters of the variant whose length stands at a place.
pub fn letters_at(bytes: &[u8], at: usize) -> &[u8] {
    part(bytes, at.wrapping_add(2), word_at(bytes, at) as usize)
}

// The place after that variant.
pub fn behind(bytes: &[u8], at: usize) -> usize {
    at.wrapping_add(2).wrapping_add(word_at(bytes, at) as usize)
}

// The place after that many variants.
pub fn skip(bytes: &[u8], from: usize, variants: usize) -> usize {
    let mut at = from;
    for _ in 0..variants {
        at = behind(bytes, at);
    }
    at
}

// The place after the segment at a place.
fn after(bytes: &[u8], at: usize) -> usize {
    skip(bytes, at.wrapping_add(1), byte_at(bytes, at) as usize)
}

// The place of the segment of that number.
pub fn segment_at(bytes: &[u8], segment: usize) -> usize {
    let mut at = 2;
    for _ in 0..segment {
        at = after(bytes, at);
    }
    at
}

// The number of variants before that segment.
pub fn variants_before(bytes: &[u8], segment: usize) -> usize {
    let mut sum = 0usize;
    for j in 0..segment {
        sum = sum.wrapping_add(byte_at(bytes, segment_at(bytes, j)) as usize);
    }
    sum
}

// Where a variant stands: its segment, its number in it, and the place of its length.
#[derive(Clone, Copy)]
pub struct Place {
    pub segment: usize,
    pub variant: usize,
    pub at: usize,
}

// The place of the variant of that number, counted over the whole text, of that many segments; after the last one a place after them.
pub fn place_of(bytes: &[u8], segments: usize, number: usize) -> Place {
    let mut variant = number;
    let mut at = 2;
    for segment in 0..segments {
        let count = byte_at(bytes, at) as usize;
        if variant < count {
            let at = skip(bytes, at.wrapping_add(1), variant);
            return Place {
                segment,
                variant,
                at,
            };
        }
        variant = variant.wrapping_sub(count);
        at = after(bytes, at);
    }
    Place {
        segment: segments,
        variant,
        at,
    }
}

// Puts a byte at a place, if there is room.
pub fn put(out: &mut [u8], at: usize, byte: u8) {
    if let Some(place) = out.get_mut(at) {
        *place = byte;
    }
}

// Puts a part from a place on, as far as there is room, and tells the place after it.
pub fn put_part(out: &mut [u8], from: usize, part: &[u8]) -> usize {
    if let Some(room) = out.get_mut(from..) {
        let n = part.len().min(room.len());
        room[..n].copy_from_slice(&part[..n]);
    }
    from.wrapping_add(part.len())
}
