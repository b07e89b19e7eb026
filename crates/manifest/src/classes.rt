// Kinds of bytes in a manifest, and names of files.
ghost use Rattle.std.specs.Prelude.{◌≡◌};
ghost use Rattle.manifest.specs.Kinds.{hex_digit, of_name, is_name};

// A hex digit as `b2sum` prints it.
#[tactic(auto, unfolding(crate::specs::Kinds::hex_digit))]
pub fn is_hex_digit(byte: u8) -> bool
    ensures { result ≡ hex_digit byte }
{
    matches!(byte, b'0'..=b'9' | b'a'..=b'f')
}

// A name is made of what a terminal shows as it is, but no backslash, by which `b2sum` marks a name that it does not print as it is.
#[tactic(auto, unfolding(crate::specs::Kinds::of_name))]
fn is_of_name(byte: u8) -> bool
    ensures { result ≡ of_name byte }
{
    32 <= byte && !matches!(byte, b'\\' | 127)
}

// Whether bytes are a name that a stretch's line may have: it has one byte at least, and is relative to the manifest's folder.
#[tactic(auto, unfolding(crate::specs::Kinds::is_name))]
pub fn is_name(name: &[u8]) -> bool
    ensures { result ≡ is_name name.now }
{
    if name.is_empty() {
        return false;
    }
    if name[0] == b'/' {
        return false;
    }
    name.iter().all(|byte| is_of_name(*byte))
}
