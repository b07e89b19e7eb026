// What of a text is written so far, with the manifest's lines in a buffer: they are written last, after their head.
ghost use Rattle.std.specs.Prelude.{◌≤◌};

use files::{Told, folder, tell, write_aside, write_new};
use layout::walk::stated;
use lines::{is_numbered, put_bytes, put_numbered};
use manifest::{is_name, put_end, put_head, put_stretch};
use text::part;

// The head is put in front of the lines when these are all there: its first line, and what it says of the text's making.
const HEAD: usize = 16384;

// What the last two lines of a manifest need at most.
const LAST_LINES: usize = 256;

// What a stretch's line has besides its name: the digest, two blanks and the line's end.
const DIGESTED: usize = 67;

// Room for a path that is too long too, so that none is cut to another file's.
const PATH: usize = 8192;

// A text by its name: how many of its stretches are written, their segments and their bytes, and the place after their lines in the
// manifest's buffer, which a caller lends to each call.
#[derive(Clone, Copy)]
pub struct Built<'a> {
    name: &'a [u8],
    pub stretches: u64,
    pub segments: u64,
    pub bytes: u64,
    pub end: usize,
}

// Whether a manifest can name the stretches of a text of this name; else it is said.
pub fn is_nameable(rt: &HostRuntime, name: &[u8]) -> bool {
    let is_named = is_name(&name[folder(name)..]);
    if !is_named {
        tell(
            rt,
            name,
            "a manifest cannot name it: it is empty, or has a backslash or a control character",
        );
    }
    is_named
}

// Puts the head in front of the lines. Where it begins.
fn put_front(about: &[u8], lines: &mut [u8]) -> usize
    ensures { result ≤ HEAD }
{
    let mut head = [0u8; HEAD];
    let first = put_head(&mut head, 0);
    let n = put_bytes(about, &mut head, first);
    let start = HEAD.saturating_sub(n);
    put_bytes(part(&head, 0, n), lines, start);
    start
}

impl Built<'_> {
    // The text of this name, without a stretch, if a manifest can name its stretches.
    pub fn begin<'a>(rt: &HostRuntime, name: &'a [u8]) -> Result<Built<'a>, Told> {
        if !is_nameable(rt, name) {
            return Err(Told);
        }
        Ok(Built {
            name,
            stretches: 0,
            segments: 0,
            bytes: 0,
            end: HEAD,
        })
    }

    // Whether there is no room for the line of a name, and for the last lines.
    fn is_full(&self, lines: &[u8], name: &[u8]) -> bool {
        lines.len().saturating_sub(self.end) < name.len().saturating_add(DIGESTED + LAST_LINES)
    }

    // Writes one stretch more, and puts its line.
    pub fn write_stretch(
        &mut self,
        rt: &HostRuntime,
        stretch: &[u8],
        lines: &mut [u8],
    ) -> Result<(), Told> {
        let number = self.stretches.wrapping_add(1);
        if !is_numbered(number) {
            return Err(tell(rt, self.name, "the text needs more than 99999 stretches"));
        }
        let mut path = [0u8; PATH];
        let end = put_numbered(self.name, number, &mut path, 0);
        let path = part(&path, 0, end);
        let name = &path[folder(path)..];
        if self.is_full(lines, name) {
            return Err(tell(
                rt,
                path,
                "the text has more stretches than a manifest lists",
            ));
        }
        write_new(rt, path, stretch)?;
        self.end = put_stretch(stretch, name, &mut *lines, self.end);
        self.stretches = number;
        self.segments = self.segments.wrapping_add(stated(stretch) as u64);
        self.bytes = self.bytes.wrapping_add(stretch.len() as u64);
        Ok(())
    }

    // Writes the manifest, after which the text is there: all of its stretches are written. `about` are comment lines on its making. Half of
    // it is never taken for all: it has another name first.
    pub fn write_manifest(
        &self,
        rt: &HostRuntime,
        about: &[u8],
        lines: &mut [u8],
    ) -> Result<(), Told> {
        let start = put_front(about, &mut *lines);
        let at = self.end.saturating_sub(start);
        if lines.len() < start {
            return Err(Told);
        }
        let lines = &mut lines[start..];
        let end = put_end(self.stretches, self.segments, self.bytes, &mut *lines, at);
        let mut half = [0u8; PATH];
        let before = put_bytes(self.name, &mut half, 0);
        let after = put_bytes(b".part", &mut half, before);
        write_aside(rt, part(&half, 0, after), self.name, part(lines, 0, end))
    }
}
