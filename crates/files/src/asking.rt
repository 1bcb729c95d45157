// What stands at a name before it is given to a piece.
use std::fs;
use std::fs::OpenOptions;
use std::io::{ErrorKind, Read, Seek};
use std::rt::Files;

// The error of opening a socket.
const ENXIO: i32 = 6;

#[derive(Clone, Copy)]
pub enum Found {
    Nothing,
    SameBytes,
    Other,
    Unreadable,
    NoName,
}

#[derive(Clone, Copy)]
pub enum Entry {
    Missing,
    Link,
    NoLink,
    // The name is too long, or what should be its folder is none.
    NoName,
}

// A link is looked at itself, not what it leads to.
pub fn entry_at<R: Files>(rt: &R, name: &str) -> Entry {
    match fs::symlink_metadata(rt, name) {
        Ok(metadata) if metadata.is_symlink() => Entry::Link,
        Ok(_) => Entry::NoLink,
        Err(error) if error.kind() == ErrorKind::NotFound => Entry::Missing,
        Err(_) => Entry::NoName,
    }
}

// One byte more than pieces can have tells a longer file. A pipe, in which reading would wait, has no position. Out of line, so that the array is on the
// stack only while a file is compared.
#[inline(never)]
fn compare_opened<F: Read + Seek>(file: &mut F, piece: &[u8]) -> Found {
    if file.stream_position().is_err() {
        return Found::Other;
    }
    let mut bytes = [0u8; 131073];
    match inputs::read_all(file, &mut bytes) {
        Ok(n) if &bytes[..n] == piece => Found::SameBytes,
        Ok(_) => Found::Other,
        Err(_) => Found::Unreadable,
    }
}

// Opened for reading and writing, since opening a pipe for reading alone would wait. Nothing is written.
fn compare<R: Files>(rt: &R, name: &str, piece: &[u8]) -> Found {
    match OpenOptions::new().read(true).write(true).open(rt, name) {
        Ok(mut file) => compare_opened(&mut file, piece),
        // A folder and a socket cannot be opened.
        Err(error) if error.kind() == ErrorKind::IsADirectory => Found::Other,
        Err(error) if error.raw_os_error() == Some(ENXIO) => Found::Other,
        Err(_) => Found::Unreadable,
    }
}

pub fn look<R: Files>(rt: &R, name: &str, piece: &[u8]) -> Found {
    match entry_at(rt, name) {
        Entry::Missing => Found::Nothing,
        Entry::Link => Found::Other,
        Entry::NoLink => compare(rt, name, piece),
        Entry::NoName => Found::NoName,
    }
}
