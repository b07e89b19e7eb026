// Files read to their end.
ghost use Rattle.std.specs.Prelude.{◌≤◌, length, IfOk, IfSome};
ghost use Rattle.files.specs.Reads.{ReadInto, PieceInto};

use crate::opening::{TRIES, opened};
use crate::saying::{Told, fail};
use std::io;
use std::io::{Error, ErrorKind};

// One read, made again where a signal interrupts it: how many bytes it put at the start of the buffer, 0 at the end of the file.
fn read_once<F: io::Read>(file: &mut F, bytes: &mut [u8]) -> io::Result<usize>
    ensures { IfOk result (λ n. n ≤ length bytes.new) }
{
    for _ in 0..TRIES {
        match file.read(&mut *bytes) {
            Err(error) if error.kind() == ErrorKind::Interrupted => {}
            read => return read,
        }
    }
    Err(Error::from(ErrorKind::Interrupted))
}

// The first n bytes of a buffer, as what was read; none where there are none.
fn front<'a>(bytes: &'a mut [u8], n: usize) -> Option<&'a [u8]>
    requires { n ≤ length bytes.old }
    ensures { IfSome result (λ piece. PieceInto bytes.entry piece) }
{
    if n == 0 {
        return None;
    }
    Some(&bytes[..n])
}

// One read: the bytes that it found, at least one, or none at the end of the file. Where the buffer is empty it fails, since nothing could
// tell the end of the file from no room.
pub fn read_piece<'a, F: io::Read>(
    file: &mut F,
    bytes: &'a mut [u8],
) -> io::Result<Option<&'a [u8]>>
    ensures { IfOk result (λ read. IfSome read (λ piece. PieceInto bytes.entry piece)) }
{
    if bytes.is_empty() {
        return Err(Error::from(ErrorKind::InvalidInput));
    }
    let n = read_once(file, &mut *bytes)?;
    Ok(front(bytes, n))
}

// Reads until the buffer is full or the file ends: how many bytes it put at the start of the buffer.
fn filled<F: io::Read>(file: &mut F, bytes: &mut [u8]) -> io::Result<usize>
    ensures { IfOk result (λ n. n ≤ length bytes.new) }
{
    let mut at = 0;
    // Stays a loop over a place: each read goes on where the last one ended, and no iterator lends the rest of a buffer.
    while at < bytes.len() {
        match read_once(&mut *file, &mut bytes[at..])? {
            0 => break,
            n => at += n,
        }
    }
    Ok(at)
}

// Reads until the buffer is full or the file ends: the bytes that it found, at least one, or none at the end of the file.
pub fn fill<'a, F: io::Read>(file: &mut F, bytes: &'a mut [u8]) -> io::Result<Option<&'a [u8]>>
    ensures { IfOk result (λ read. IfSome read (λ piece. PieceInto bytes.entry piece)) }
{
    let n = filled(file, &mut *bytes)?;
    Ok(front(bytes, n))
}

// Reads a file to its end: all its bytes, or none where it has more than the buffer. After a full buffer it asks for one byte more, and so
// knows whether there is any.
pub fn read_all<'a, F: io::Read>(file: &mut F, bytes: &'a mut [u8]) -> io::Result<Option<&'a [u8]>>
    ensures { IfOk result (λ read. IfSome read (λ whole. ReadInto bytes.entry whole)) }
{
    let n = filled(&mut *file, &mut *bytes)?;
    if 0 < n && n == bytes.len() && read_piece(file, &mut [0])?.is_some() {
        return Ok(None);
    }
    Ok(Some(&bytes[..n]))
}

// Opens a file by its name, and reads it to its end.
fn read_named<'a>(
    rt: &HostRuntime,
    path: &[u8],
    bytes: &'a mut [u8],
) -> io::Result<Option<&'a [u8]>>
    ensures { IfOk result (λ read. IfSome read (λ whole. ReadInto bytes.entry whole)) }
{
    let mut file = opened(rt, path)?;
    read_all(&mut file, bytes)
}

// Reads a file to its end, by its name: all its bytes, or none where it has more than the buffer. Where that fails, the reason is said.
pub fn read_file<'a>(
    rt: &HostRuntime,
    path: &[u8],
    bytes: &'a mut [u8],
) -> Result<Option<&'a [u8]>, Told>
    ensures { IfOk result (λ read. IfSome read (λ whole. ReadInto bytes.entry whole)) }
{
    read_named(rt, path, bytes).map_err(|error| fail(rt, path, error))
}
