// Files written whole.
ghost use Rattle.std.specs.Prelude.{IfOk};
ghost use Rattle.io.specs.Counts.{IsPrefixLen};

use crate::opening::{TRIES, created, path_text};
use crate::saying::{Told, fail};
use std::fs::File;
use std::io::{Error, ErrorKind};
use std::{fs, io};

// One write, made again where a signal interrupts it: how many bytes it took.
fn write_piece<F: io::Write>(file: &mut F, bytes: &[u8]) -> io::Result<usize>
    ensures { IfOk result (λ n. IsPrefixLen n bytes.now) }
{
    for _ in 0..TRIES {
        match file.write(bytes) {
            Err(error) if error.kind() == ErrorKind::Interrupted => {}
            written => return written,
        }
    }
    Err(Error::from(ErrorKind::Interrupted))
}

// Writes all of the bytes. Where a write takes none of them or fails, some may have been written.
// Stays beside std's own: the edit nothing_written_tried_for_ever is of this body.
pub fn write_all<F: io::Write>(file: &mut F, bytes: &[u8]) -> io::Result<()> {
    let mut rest = bytes;
    while !rest.is_empty() {
        let put = write_piece(&mut *file, rest)?;
        if put == 0 {
            return Err(Error::from(ErrorKind::WriteZero));
        }
        rest = &rest[put..];
    }
    Ok(())
}

// Waits until what was written has reached its device. A device that knows no such wait has nothing to wait for.
fn synced(file: &File) -> io::Result<()> {
    match file.sync_all() {
        Err(error) if error.kind() == ErrorKind::InvalidInput => Ok(()),
        waited => waited,
    }
}

// Makes a file with these bytes, under a name that is not taken. That they have reached their device is waited for: what a device refuses
// late would else show at the close alone, whose failure std does not tell.
fn make(rt: &HostRuntime, path: &[u8], bytes: &[u8]) -> io::Result<()> {
    let mut file = created(rt, path)?;
    write_all(&mut file, bytes)?;
    synced(&file)
}

// Makes a file with these bytes, under a name that is not taken. Where a step of it fails, the reason is said on standard error.
pub fn write_new(rt: &HostRuntime, path: &[u8], bytes: &[u8]) -> Result<(), Told> {
    make(rt, path, bytes).map_err(|error| fail(rt, path, error))
}

// Gives a file another name, whose file it replaces.
fn renamed(rt: &HostRuntime, from: &[u8], to: &[u8]) -> io::Result<()> {
    fs::rename(rt, path_text(from)?, path_text(to)?)
}

// Makes a file with these bytes under another name, waits until they are kept, and then gives it its own: half of it is never there.
pub fn write_aside(rt: &HostRuntime, half: &[u8], path: &[u8], bytes: &[u8]) -> Result<(), Told> {
    write_new(rt, half, bytes)?;
    renamed(rt, half, path).map_err(|error| fail(rt, path, error))
}
