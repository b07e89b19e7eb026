// Descriptors that the caller of a program opened, by their numbers. std opens files by name alone, so such a file is opened once more, by
// the name that the system has for the descriptor.
use std::fs::{File, OpenOptions};
use std::io::{Error, ErrorKind, Seek, SeekFrom};
use std::os::unix::fs::FileTypeExt;
use std::{fs, io};

// The system's number for a descriptor that is not open, or not for what is asked of it.
const EBADF: i32 = 9;

// What the system says of a descriptor: the lines of its file in /proc/self/fdinfo.
fn facts(rt: &HostRuntime, number: u32) -> io::Result<String> {
    let name = format!(in rt.alloc(); "/proc/self/fdinfo/{number}")?;
    fs::read_to_string(rt, name).map_err(|error| match error.kind() {
        ErrorKind::NotFound => Error::from_raw_os_error(EBADF),
        _ => error,
    })
}

// What stands after a word at the start of a line.
fn fact<'a>(facts: &'a str, word: &str) -> io::Result<&'a str> {
    facts
        .lines()
        .find_map(|line| line.strip_prefix(word))
        .map(|rest| rest.trim())
        .ok_or(Error::from(ErrorKind::InvalidData))
}

// How far the descriptor is read.
fn position(rt: &HostRuntime, number: u32) -> io::Result<u64> {
    let text = facts(rt, number)?;
    fact(text.as_str(), "pos:")?
        .parse::<u64>()
        .map_err(|_| Error::from(ErrorKind::InvalidData))
}

// The digits stay bytes: they are the system's text.
// Fails if the last digit of the descriptor's flags is not one of two: 0 for reading alone, 1 for writing alone, 2 for both.
fn is_open_for(rt: &HostRuntime, number: u32, alone: u8) -> io::Result<()> {
    let text = facts(rt, number)?;
    match fact(text.as_str(), "flags:")?.as_bytes().last() {
        Some(digit) if *digit == alone || *digit == b'2' => Ok(()),
        _ => Err(Error::from_raw_os_error(EBADF)),
    }
}

// The file of the descriptor of this number for reading, from where the descriptor stands. A pipe that has a name, and that its writers
// have left, would keep who opens it for reading waiting: it is open for both as long as that takes. A descriptor that is open for writing
// alone is none.
pub fn given_to_read(rt: &HostRuntime, number: u32) -> io::Result<File> {
    is_open_for(rt, number, b'0')?;
    let name = format!(in rt.alloc(); "/proc/self/fd/{number}")?;
    if fs::metadata(rt, name.as_str())?.file_type().is_fifo() {
        let both = OpenOptions::new()
            .read(true)
            .write(true)
            .open(rt, name.as_str())?;
        let file = File::open(rt, name.as_str());
        drop(both);
        return file;
    }
    let mut file = File::open(rt, name.as_str())?;
    let at = position(rt, number)?;
    if at != 0 {
        file.seek(SeekFrom::Start(at))?;
    }
    Ok(file)
}

// The file of the descriptor of this number for writing, at its end. A descriptor that is open for reading alone is none. A pipe is opened
// for both, since who opens it for writing alone may be kept waiting.
pub fn given_to_append(rt: &HostRuntime, number: u32) -> io::Result<File> {
    is_open_for(rt, number, b'1')?;
    let name = format!(in rt.alloc(); "/proc/self/fd/{number}")?;
    let is_pipe = fs::metadata(rt, name.as_str())?.file_type().is_fifo();
    OpenOptions::new()
        .read(is_pipe)
        .append(true)
        .open(rt, name.as_str())
}
