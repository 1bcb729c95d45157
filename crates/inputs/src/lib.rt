// Reading a reader, or a file that the command line names, into a lent buffer. std's read_exact says nothing of the bytes where the input ends, and
// its read_to_end wants a vector; here the end of the input and a failure are two answers, so that no program takes a part of a file for the file.
#![tactic(auto)]

ghost use Rattle.std.specs.Prelude.{◌≤◌, length};
ghost use Rattle.inputs.specs.AtFront.{AtFront};
ghost use Rattle.inputs.specs.Taken.{TakenOnce, TakenFrom};

use std::env::FillError;
use std::fs::File;
use std::io;
use std::io::{ErrorKind, Read};
use std::rt::{Env, Files};

// One read, tried again where a signal interrupted it; 0 bytes are the end. The count of tries has no end in practice; a loop has to have one.
fn read_once<R: Read>(from: &mut R, buf: &mut [u8]) -> io::Result<usize>
    ensures in_bounds { AtFront result buf.new }
    ensures bytes { TakenOnce (R.remaining from.old) (R.remaining from.new) result buf.new }
{
    for _ in 0..u64::MAX {
        match from.read(buf) {
            Err(error) if error.kind() == ErrorKind::Interrupted => {}
            read => return read,
        }
    }
    Err(ErrorKind::Interrupted.into())
}

// Reads to the end of the input or of the buffer, from an index of the buffer on; where the bytes end that are in the buffer then.
pub fn read_from<R: Read>(from: &mut R, buf: &mut [u8], at: usize) -> io::Result<usize>
    requires { at ≤ length buf.old }
    ensures in_bounds { AtFront result buf.new }
    ensures bytes { TakenFrom (R.remaining from.old) (R.remaining from.new) result buf.old buf.new at }
{
    let mut end = at;
    // No `for`: a read decides where the next begins.
    while end < buf.len() {
        let more = read_once(from, &mut buf[end..])?;
        if more == 0 {
            break;
        }
        end += more;
    }
    Ok(end)
}

// The same from the buffer's front.
pub fn read_all<R: Read>(from: &mut R, buf: &mut [u8]) -> io::Result<usize>
    ensures in_bounds { AtFront result buf.new }
    ensures bytes { TakenFrom (R.remaining from.old) (R.remaining from.new) result buf.old buf.new 0 }
{
    read_from(from, buf, 0)
}

// Reads a file after the bytes that are there. The file is closed before a failure is told, since it may have standard error's number. std opens
// only names that are UTF-8.
fn read_file<F: Files>(rt: &F, name: &[u8], buf: &mut [u8], at: usize) -> io::Result<usize>
    requires { at ≤ length buf.old }
    ensures { AtFront result buf.new }
{
    let path = std::str::from_utf8(name).map_err(|_| ErrorKind::InvalidFilename)?;
    let mut file = File::open(rt, path)?;
    read_from(&mut file, buf, at)
}

// A word of the command line at the buffer's front; one that is not there, or is longer than the buffer, is a failure.
pub fn word<E: Env>(rt: &E, number: usize, buf: &mut [u8]) -> Result<usize, FillError>
    ensures { AtFront result buf.new }
{
    rt.arg(number, buf)
}

// How many words the command line has; the program's own name is the first.
pub fn word_count<E: Env>(rt: &E) -> usize {
    let mut none = [0u8; 0];
    for number in 0..usize::MAX {
        if let Err(FillError::NotPresent) = rt.arg(number, &mut none) {
            return number;
        }
    }
    usize::MAX
}

// Reads the file that a word of the command line names, after the bytes that are there. A word that is longer than the buffer is longer than any path.
pub fn read_word<R: Env + Files>(
    rt: &R,
    number: usize,
    buf: &mut [u8],
    at: usize,
) -> io::Result<usize>
    requires { at ≤ length buf.old }
    ensures { AtFront result buf.new }
{
    let mut name = [0u8; 4096];
    let n = word(rt, number, &mut name).map_err(|_| ErrorKind::InvalidFilename)?;
    read_file(rt, &name[..n], buf, at)
}
