// notecut CAPACITY ID [PREFIX [USED]]: cuts the file on standard input and writes its pieces one after another to standard output or, with a
// third word that is not empty, each to a file of its own, PREFIX.1, PREFIX.2, .., all of them or none; then `ok`, the count of pieces and their
// bytes to standard error. The fourth word names a file of used IDs, which is read and never written (crate id_file). A refusal goes to standard error, as
// `no` and its number and line, and then nothing is written and no file is made. Where reading or writing fails, a line `error` with the word that says
// which goes to standard error in place of `ok`, with the number of the piece where it is about one, and of the line or ID of a bad file of used IDs.
// One byte more than the limit is read, which is enough to refuse a longer file. 999 pieces have at most 106,482 bytes, so the output is never too
// short.
#![tactic(auto)]

use id_file::BadId;
use std::env::FillError;

// --- what fails ---

#[derive(Clone, Copy, Debug, PartialEq, Eq)]
enum Failure {
    Usage,
    Read,
    Used,
    BadId(BadId),
    Output,
    Pieces(files::Failure),
}

fn tell(rt: &HostRuntime, failure: Failure) {
    let mut err = rt.stderr();
    match failure {
        Failure::Usage => answers::write_error(
            &mut err,
            b"usage: notecut CAPACITY ID [PREFIX [USED]]",
        ),
        Failure::Read => answers::write_error(&mut err, b"read"),
        Failure::Used => answers::write_error(&mut err, b"used"),
        Failure::BadId(bad) => answers::write_error_at(&mut err, b"used", bad.number as u64),
        Failure::Output => answers::write_error(&mut err, b"write"),
        Failure::Pieces(files::Failure::Exists(k)) => {
            answers::write_error_at(&mut err, b"exists", k);
        }
        Failure::Pieces(files::Failure::Unread(k)) => {
            answers::write_error_at(&mut err, b"read", k);
        }
        Failure::Pieces(files::Failure::Unwritten(k)) => {
            answers::write_error_at(&mut err, b"write", k);
        }
        Failure::Pieces(files::Failure::Unsynced) => answers::write_error(&mut err, b"write"),
    }
}

// --- the words ---

// The first word, where it is digits and 64 bits hold the number.
fn capacity(rt: &HostRuntime) -> Option<u64> {
    let mut word = [0u8; 4096];
    let n = inputs::word(rt, 1, &mut word).ok()?;
    let text = std::str::from_utf8(&word[..n]).ok()?;
    // `parse` would take a sign.
    if !text.bytes().all(|byte| byte.is_ascii_digit()) {
        return None;
    }
    text.parse().ok()
}

// --- writing ---

// The third word is the prefix. One that is longer than the buffer is longer than any path.
fn write_pieces(rt: &HostRuntime, pieces: &[u8]) -> Result<(), Failure> {
    let mut prefix = [0u8; 4096];
    match inputs::word(rt, 3, &mut prefix) {
        Ok(0) | Err(FillError::NotPresent) => {
            answers::write_whole(&mut rt.stdout(), pieces).map_err(|_| Failure::Output)
        }
        Ok(n) => files::write_pieces(rt, &prefix[..n], pieces).map_err(Failure::Pieces),
        Err(FillError::TooLong) => Err(Failure::Pieces(files::Failure::Unwritten(1))),
    }
}

// --- the program ---

// Out of line, so that what the call takes of the stack is given back before pieces are written.
#[inline(never)]
fn pieces_of(file: &[u8], capacity: u64, id: &[u8], used: &[u8], out: &mut [u8]) -> replies::Reply {
    gateway::notebook_cut(file, capacity, id, used, out)
}

// An ID that is longer than the buffer comes as an empty one, which is refused as well.
fn cut(rt: &HostRuntime, file: &[u8], capacity: u64, used: &[u8]) -> Result<(), Failure> {
    let mut id = [0u8; 4096];
    let mut out = [0u8; 106482];
    let n = inputs::word(rt, 2, &mut id).unwrap_or(0);
    let reply = pieces_of(file, capacity, &id[..n], used, &mut out);
    if reply.refusal == 0 {
        // The pieces are never more bytes than the buffer has.
        let Some(pieces) = out.get(..reply.b as usize) else {
            return Ok(());
        };
        write_pieces(rt, pieces)?;
    }
    answers::write_reply_as_error(&mut rt.stderr(), 2, reply);
    Ok(())
}

// Room for 100,000 IDs in lines that end in 0Dh 0Ah, and for one byte more, which tells that there are others. A function of its own so that a
// proof has the length from the type: where the zeros stand beside the part that is lent, the prover counts them.
fn id_room() -> [u8; 1600001] {
    [0; 1600001]
}

// The fourth word is the file of used IDs.
fn cut_with_used(rt: &HostRuntime, file: &[u8], capacity: u64) -> Result<(), Failure> {
    let mut ids = id_room();
    let end = inputs::read_word(rt, 4, &mut ids, 0).map_err(|_| Failure::Used)?;
    if end == ids.len() {
        return Err(Failure::Used);
    }
    let run = id_file::run_of(&mut ids[..end]).map_err(Failure::BadId)?;
    cut(rt, file, capacity, &ids[..run])
}

// The program's own name is among the words.
fn cut_input(rt: &HostRuntime) -> Result<(), Failure> {
    let words = inputs::word_count(rt);
    if !(3..=5).contains(&words) {
        return Err(Failure::Usage);
    }
    let capacity = capacity(rt).ok_or(Failure::Usage)?;
    let mut file = [0u8; 65537];
    let n = inputs::read_all(&mut rt.stdin(), &mut file).map_err(|_| Failure::Read)?;
    if words == 5 {
        cut_with_used(rt, &file[..n], capacity)
    } else {
        cut(rt, &file[..n], capacity, b"")
    }
}

fn main(rt: HostRuntime) {
    if let Err(failure) = cut_input(&rt) {
        tell(&rt, failure);
    }
}
