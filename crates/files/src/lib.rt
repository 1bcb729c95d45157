// Pieces written to files of their own, PREFIX.1, PREFIX.2 .., all of them or none. Names are asked before anything is made. Each piece is
// written to a temporary file of the same folder and synced there; once all are there, each takes its name, and the folder is synced. After any
// failure everything that was made is removed. Nothing is told here: where standard error is closed, a file that is open may have its number.
#![tactic(auto)]

mod asking;
mod folder;
mod piece_file;
mod pieces;

use piece_file::PieceFile;
use pieces::Pieces;
use std::random::RandomSource;
use std::rt::Files;

// What failed, with the number of the piece that it is about.
#[derive(Clone, Copy, Debug, PartialEq, Eq)]
pub enum Failure {
    Exists(u64),
    Unread(u64),
    Unwritten(u64),
    Unsynced,
}

// A file is cut in at most 999 pieces.
type PieceFiles<'a> = [PieceFile<'a>; 999];

// Asks what stands at the names, up to the first piece that cannot have its name.
fn ask_names<R: Files>(rt: &R, files: &mut PieceFiles, pieces: &[u8]) -> Result<(), Failure> {
    let mut files = files.iter_mut();
    for piece in Pieces::of(pieces) {
        let file = files.next().ok_or(Failure::Unwritten(1000))?;
        file.ask(rt, piece)?;
    }
    Ok(())
}

// Writes the pieces whose names have been asked, up to the first failure.
fn write_asked<R: Files + RandomSource>(
    rt: &R,
    prefix: &[u8],
    files: &mut PieceFiles,
    pieces: &[u8],
) -> Result<(), Failure> {
    for (file, piece) in files.iter_mut().zip(Pieces::of(pieces)) {
        file.make(rt, piece)?;
    }
    for file in files.iter_mut() {
        file.take_name(rt)?;
    }
    folder::sync(rt, prefix).map_err(|_| Failure::Unsynced)
}

// Out of line: its array and its names are then on the stack only while pieces go to files.
#[inline(never)]
pub fn write_pieces<R: Files + RandomSource>(
    rt: &R,
    prefix: &[u8],
    pieces: &[u8],
) -> Result<(), Failure> {
    // std opens only names that are UTF-8. Of no pieces none has a name.
    let name = match std::str::from_utf8(prefix) {
        Ok(name) => name,
        Err(_) if pieces.is_empty() => "",
        Err(_) => return Err(Failure::Unwritten(1)),
    };
    let mut files: PieceFiles = std::array::from_fn(|i| PieceFile::new(name, i as u64 + 1));
    ask_names(rt, &mut files, pieces)?;
    let written = write_asked(rt, prefix, &mut files, pieces);
    if written.is_err() {
        for file in &files {
            file.remove(rt);
        }
    }
    written
}
