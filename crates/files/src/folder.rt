// The folder of a prefix: a name that was taken stays after a failure of the machine only once the folder is synced.
use std::fs::{File, OpenFile};
use std::io;
use std::io::ErrorKind;
use std::rt::Files;

// The error of a file system that syncs no folder.
const EINVAL: i32 = 22;

// The folder's name with the slash that ends it. std opens only names that are UTF-8.
fn folder_of(prefix: &[u8]) -> io::Result<&str> {
    match prefix.iter().rposition(|byte| *byte == b'/') {
        Some(slash) => str::from_utf8(&prefix[..=slash]).map_err(
            |_| ErrorKind::InvalidFilename.into(),
        ),
        None => Ok("."),
    }
}

pub fn sync<R: Files>(rt: &R, prefix: &[u8]) -> io::Result<()> {
    match File::open(rt, folder_of(prefix)?)?.sync_all() {
        Err(error) if error.raw_os_error() == Some(EINVAL) => Ok(()),
        synced => synced,
    }
}
