// Files opened by their names.
use std::fs::{File, OpenOptions};
use std::io;
use std::io::{Error, ErrorKind};

// How often a call is made again that a signal interrupts: so often that it never matters, and so that every loop ends.
pub const TRIES: u64 = 0xffff_ffff_ffff_ffff;

// A path as text, which std's paths are. One that is not UTF-8 names no file that can be opened.
pub fn path_text(path: &[u8]) -> io::Result<&str> {
    std::str::from_utf8(path).map_err(|_| {
        Error::new(
            ErrorKind::InvalidInput,
            "its name is not UTF-8, and no such file can be opened",
        )
    })
}

// Opens a file for reading.
pub fn opened(rt: &HostRuntime, path: &[u8]) -> io::Result<File> {
    File::open(rt, path_text(path)?)
}

// Makes a new file for writing. One that is there already is a failure.
pub fn created(rt: &HostRuntime, path: &[u8]) -> io::Result<File> {
    let text = path_text(path)?;
    OpenOptions::new()
        .write(true)
        .create_new(true)
        .open(rt, text)
}
