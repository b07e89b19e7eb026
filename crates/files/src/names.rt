// The parts of a path.
ghost use Rattle.io.specs.Counts.{IsPrefixLen};

// How many bytes of a path name its folder, with the / after it; 0 where it names none. The rest is the file's own name.
pub fn folder(path: &[u8]) -> usize
    ensures { IsPrefixLen result path.now }
{
    path.iter()
        .rposition(|byte| *byte == b'/')
        .map_or(0, |i| i + 1)
}
