// The file of one piece, and how far it is, so that what was made can be removed.
use crate::asking::{Entry, Found};
use crate::{Failure, asking};
use arrayvec::ArrayString;
use std::fmt::Write as _;
use std::fs::{OpenFile, OpenOptions};
use std::io::{ErrorKind, Write};
use std::os::unix::fs::OpenOptionsExt;
use std::random::RandomSource;
use std::rt::Files;
use std::{fmt, fs, io};

// Room for a prefix of 4,096 bytes and what follows it. A path is shorter than that, so a name that has no room is never one.
type Name = ArrayString<4128>;

// The letters and digits of temporary names.
const SIGNS: &[u8; 62] = b"abcdefghijklmnopqrstuvwxyzABCDEFGHIJKLMNOPQRSTUVWXYZ0123456789";

// What a temporary name ends in.
#[derive(Clone, Copy)]
struct Letters([u8; 6]);

impl From<[u8; 6]> for Letters {
    fn from(random: [u8; 6]) -> Self {
        Letters(random.map(|byte| SIGNS[usize::from(byte) % 62]))
    }
}

impl fmt::Display for Letters {
    fn fmt<W: fmt::Write>(&self, f: &mut fmt::Formatter<W>) -> fmt::Result {
        for letter in self.0 {
            f.write_char(char::from(letter))?;
        }
        Ok(())
    }
}

#[derive(Clone, Copy)]
enum Stage {
    // Nothing is made of it yet.
    Unmade,
    // Its name has exactly its bytes already, and is left alone.
    Kept,
    // Its temporary file is there.
    Made(Letters),
    // This run gave it its name.
    Named,
}

#[derive(Clone, Copy)]
pub struct PieceFile<'a> {
    prefix: &'a str,
    number: u64,
    stage: Stage,
}

impl<'a> PieceFile<'a> {
    pub fn new(prefix: &'a str, number: u64) -> Self {
        PieceFile {
            prefix,
            number,
            stage: Stage::Unmade,
        }
    }

    fn unwritten(&self) -> Failure {
        Failure::Unwritten(self.number)
    }

    // PREFIX.K
    fn name(&self) -> Result<Name, Failure> {
        let mut name = Name::new();
        write!(name, "{}.{}", self.prefix, self.number).map_err(|_| self.unwritten())?;
        Ok(name)
    }

    // The temporary name, PREFIX.K and the letters.
    fn temporary_name(&self, letters: Letters) -> Result<Name, Failure> {
        let mut name = self.name()?;
        write!(name, ".{letters}").map_err(|_| self.unwritten())?;
        Ok(name)
    }

    // Asks what stands at the piece's name.
    pub fn ask<R: Files>(&mut self, rt: &R, piece: &[u8]) -> Result<(), Failure> {
        let name = self.name()?;
        match asking::look(rt, name.as_str(), piece) {
            Found::Nothing => Ok(()),
            Found::SameBytes => {
                self.stage = Stage::Kept;
                Ok(())
            }
            Found::Other => Err(Failure::Exists(self.number)),
            Found::Unreadable => Err(Failure::Unread(self.number)),
            Found::NoName => Err(self.unwritten()),
        }
    }

    // Makes the temporary file. As many tries as C's mkstemp takes.
    fn create<R: Files + RandomSource>(&mut self, rt: &R) -> Result<R::File, Failure> {
        for _ in 0..238328 {
            let mut random = [0; 6];
            rt.fill_bytes(&mut random).map_err(|_| self.unwritten())?;
            let letters = Letters::from(random);
            let name = self.temporary_name(letters)?;
            match create_new(rt, name.as_str()) {
                Ok(file) => {
                    self.stage = Stage::Made(letters);
                    return Ok(file);
                }
                Err(error) if error.kind() == ErrorKind::AlreadyExists => {}
                Err(_) => return Err(self.unwritten()),
            }
        }
        Err(self.unwritten())
    }

    // Writes the piece to its temporary file.
    pub fn make<R: Files + RandomSource>(&mut self, rt: &R, piece: &[u8]) -> Result<(), Failure> {
        if let Stage::Kept = self.stage {
            return Ok(());
        }
        let file = self.create(rt)?;
        fill(file, piece).map_err(|_| self.unwritten())
    }

    // Gives the temporary file the piece's name, if one was made.
    pub fn take_name<R: Files>(&mut self, rt: &R) -> Result<(), Failure> {
        if let Stage::Made(letters) = self.stage {
            self.rename(rt, letters)?;
            self.stage = Stage::Named;
        }
        Ok(())
    }

    // std's rename takes the place of a file that is there, so the name is asked once more. Apart from `take_name`, since the room for names is cleared
    // at each call, and most of the files have nothing to rename.
    #[inline(never)]
    fn rename<R: Files>(&self, rt: &R, letters: Letters) -> Result<(), Failure> {
        let name = self.name()?;
        match asking::entry_at(rt, name.as_str()) {
            Entry::Missing => {}
            Entry::Link | Entry::NoLink => return Err(Failure::Exists(self.number)),
            Entry::NoName => return Err(self.unwritten()),
        }
        let temporary = self.temporary_name(letters)?;
        fs::rename(rt, temporary.as_str(), name.as_str()).map_err(|_| self.unwritten())
    }

    // Removes what was made of the piece. Where that fails, nothing else can be done.
    pub fn remove<R: Files>(&self, rt: &R) {
        let made = match self.stage {
            Stage::Made(letters) => self.temporary_name(letters),
            Stage::Named => self.name(),
            Stage::Unmade | Stage::Kept => return,
        };
        if let Ok(name) = made {
            let _ = fs::remove_file(rt, name.as_str());
        }
    }
}

// A file that is not there yet, which only its owner may read and write.
fn create_new<R: Files>(rt: &R, name: &str) -> io::Result<R::File> {
    OpenOptions::new()
        .read(true)
        .write(true)
        .create_new(true)
        .mode(0o600)
        .open(rt, name)
}

// The file is closed here. What the system says to its closing std does not tell; it has been synced before.
fn fill<F: Write + OpenFile + Drop>(mut file: F, piece: &[u8]) -> io::Result<()> {
    answers::write_whole(&mut file, piece)?;
    file.sync_all()
}
