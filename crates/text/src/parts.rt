// Parts of slices by places that come from elsewhere.
ghost use Rattle.std.specs.Prelude.{◌≡◌};
ghost use Rattle.text.specs.Compare.{from_to};

// The bytes from one place up to another, as far as they are there.
pub fn part(bytes: &[u8], start: usize, end: usize) -> &[u8]
    ensures { result.now ≡ from_to bytes.now start end }
{
    if bytes.len() < start {
        return &bytes[..0];
    }
    if end < start {
        return &bytes[..0];
    }
    if bytes.len() < end {
        return &bytes[start..];
    }
    &bytes[start..end]
}
