// How programs print a reply. `print` makes its line (printing, specs/Printed.antt), and everything that a program prints of a reply is written
// from there, by one call of `write_whole`. That the system's `write` writes the bytes that it is given is assumed, as the kit assumes it; for a writer
// whose bytes are known it is proved (specs/Written.antt). Lines are put into a buffer by hand: std's writer over a lent slice has no known bytes, and
// `write!` tells only what is written where it succeeds.
#![tactic(auto)]

ghost use Rattle.std.specs.Prelude.{[], ◌∷◌, ◌++◌, ◌+◌, ◌*◌, ◌≤◌, ◌≡◌, ◌≢◌, length, take, drop, slice_index, OnOk};
ghost use Rattle.std.specs.Io.KnownBytes.{Keeps};
ghost use Rattle.inputs.specs.Counts.{IsPrefixLen};
ghost use Rattle.lists.specs.Lists.{bytes};
ghost use Rattle.buffers.specs.Buffers.{Wrote};
ghost use Rattle.printing.specs.Printed.{decimal, spaced, line, printed, Prints};
ghost use Rattle.answers.specs.Written.{Written, WrittenInPart};

use replies::Reply;
use std::io::{ErrorKind, Result, Write};

// A number, which has at most 20 digits.
pub fn put_decimal(out: &mut [u8], at: usize, n: u64) -> usize
    requires { at + 20 ≤ length out.old }
    ensures wrote { Wrote out.old out.new at result (decimal n) }
    ensures upper_bound { result ≤ at + 20 }
{
    let mut digits = itoa::Buffer::new();
    buffers::put_all(out, at, digits.format(n).as_bytes())
}

// A space and a number.
fn put_number(out: &mut [u8], at: usize, n: u64) -> usize
    requires { at + 21 ≤ length out.old }
    ensures wrote { Wrote out.old out.new at result (0x20 ∷ decimal n) }
    ensures upper_bound { result ≤ at + 21 }
{
    let next = buffers::put_byte(out, at, b' ');
    put_decimal(out, next, n)
}

// Numbers, each after a space.
fn put_numbers(out: &mut [u8], at: usize, numbers: &[u64]) -> usize
    requires { at + 21 * length numbers.now ≤ length out.old }
    ensures wrote { Wrote out.old out.new at result (spaced numbers.now) }
    ensures upper_bound { result ≤ at + 21 * length numbers.now }
{
    let mut end = at;
    for n in numbers {
        end = put_number(out, end, *n);
    }
    end
}

// A line of a word and its numbers.
fn put_line(out: &mut [u8], at: usize, word: &[u8], numbers: &[u64]) -> usize
    requires { at + length word.now + 21 * length numbers.now + 1 ≤ length out.old }
    ensures { Wrote out.old out.new at result (line word.now numbers.now) }
{
    let next = buffers::put_all(out, at, word);
    let end = put_numbers(out, next, numbers);
    buffers::put_byte(out, end, b'\n')
}

// The line of a reply whose result has so many values, at the buffer's front; how many bytes it has. A word, three numbers of at most 20 digits,
// each with its space, and 0Ah are 66 bytes. The rest of the buffer stays as it was lent.
pub fn print(values: usize, r: Reply, out: &mut [u8; 66]) -> usize
    ensures prints { Prints values r out.old out.new result }
    ensures prefix_len { IsPrefixLen result out.new }
{
    if r.refusal == 0 {
        let results = [r.a, r.b, r.c];
        return put_line(out, 0, b"ok", &results[..values.min(3)]);
    }
    put_line(out, 0, b"no", &[r.refusal, r.line])
}

// The line of a failure: `error`, what failed and the numbers that say where.
fn put_error(out: &mut [u8; 144], word: &[u8], numbers: &[u64]) -> usize
    requires word_len { length word.now ≤ 64 }
    requires count { length numbers.now ≤ 3 }
    ensures wrote { Wrote out.old out.new 0 result (line (bytes "error " ++ word.now) numbers.now) }
    ensures prefix_len { IsPrefixLen result out.new }
{
    let at = buffers::put_all(out, 0, b"error ");
    put_line(out, at, word, numbers)
}

// The line of a record in the index: seven numbers with single spaces, and 0Ah.
pub fn put_entry(out: &mut [u8], at: usize, numbers: &[u64; 7]) -> usize
    requires { at + 147 ≤ length out.old }
    ensures wrote { Wrote out.old out.new at result (line (decimal (slice_index numbers.now 0)) (drop 1 numbers.now)) }
    ensures upper_bound { result ≤ at + 147 }
{
    let [a, b, c, d, e, f, g] = *numbers;
    let next = put_decimal(out, at, a);
    let end = put_numbers(out, next, &[b, c, d, e, f, g]);
    buffers::put_byte(out, end, b'\n')
}

// Writes bytes whole. A write that takes nothing ends it, and so does one that fails, also where a signal interrupts it before it takes a byte.
pub fn write_whole<W: Write>(to: &mut W, bytes: &[u8]) -> Result<()>
    ensures { Written result (W.contents to.old) (W.contents to.new) bytes.now }
{
    let mut done: usize = 0;
    // No `for`: a write decides where the next begins.
    while done < bytes.len() {
        let more = to.write(&bytes[done..])?;
        if more == 0 {
            return Err(ErrorKind::WriteZero.into());
        }
        done += more;
    }
    Ok(())
}

// Tells a failure on standard error, in one write. Where that fails, nothing is left to tell it by.
fn write_error_line<E: Write>(err: &mut E, word: &[u8], numbers: &[u64])
    requires word_len { length word.now ≤ 64 }
    requires count { length numbers.now ≤ 3 }
    ensures { WrittenInPart (E.contents err.old) (E.contents err.new) (line (bytes "error " ++ word.now) numbers.now) }
{
    let mut text = [0u8; 144];
    let n = put_error(&mut text, word, numbers);
    let _ = write_whole(err, &text[..n]);
}

// `error WORD`
pub fn write_error<E: Write>(err: &mut E, word: &[u8])
    requires { length word.now ≤ 64 }
    ensures { WrittenInPart (E.contents err.old) (E.contents err.new) (line (bytes "error " ++ word.now) []) }
{
    write_error_line(err, word, &[]);
}

// `error WORD K`
pub fn write_error_at<E: Write>(err: &mut E, word: &[u8], k: u64)
    requires { length word.now ≤ 64 }
    ensures { WrittenInPart (E.contents err.old) (E.contents err.new) (line (bytes "error " ++ word.now) (k ∷ [])) }
{
    write_error_line(err, word, &[k]);
}

// Writes bytes whole to standard output; where that fails, tells it.
pub fn write_output<O: Write, E: Write>(out: &mut O, err: &mut E, bytes: &[u8]) -> Result<()>
    ensures written { Written result (O.contents out.old) (O.contents out.new) bytes.now }
    ensures silent { OnOk result (Keeps (E.contents err.old) (E.contents err.new)) }
{
    let written = write_whole(out, bytes);
    if written.is_err() {
        write_error(err, b"write");
    }
    written
}

// Writes the line of a reply.
fn write_reply_to<W: Write>(to: &mut W, values: usize, r: Reply) -> Result<()>
    ensures { Written result (W.contents to.old) (W.contents to.new) (printed values r) }
{
    let mut text = [0u8; 66];
    let n = print(values, r, &mut text);
    write_whole(to, &text[..n])
}

// Writes the line of a reply to standard output; where that fails, tells it.
pub fn write_reply<O: Write, E: Write>(out: &mut O, err: &mut E, values: usize, r: Reply)
    ensures { WrittenInPart (O.contents out.old) (O.contents out.new) (printed values r) }
{
    if write_reply_to(out, values, r).is_err() {
        write_error(err, b"write");
    }
}

// Writes the line of a reply to standard error. Where that fails, nothing is left to tell it by.
pub fn write_reply_as_error<E: Write>(err: &mut E, values: usize, r: Reply)
    ensures { WrittenInPart (E.contents err.old) (E.contents err.new) (printed values r) }
{
    let _ = write_reply_to(err, values, r);
}

// Writes the file that a call has made at a buffer's front, as long as its reply says, to standard output; or its refusal to standard error.
pub fn write_file<O: Write, E: Write>(out: &mut O, err: &mut E, r: Reply, buffer: &[u8])
    ensures made { r.refusal ≡ 0 → r.a ≤ length buffer.now → WrittenInPart (O.contents out.old) (O.contents out.new) (take r.a buffer.now) }
    ensures refused { r.refusal ≢ 0 → WrittenInPart (E.contents err.old) (E.contents err.new) (printed 1 r) }
    ensures silent { r.refusal ≢ 0 → Keeps (O.contents out.old) (O.contents out.new) }
{
    if r.refusal != 0 {
        write_reply_as_error(err, 1, r);
    } else if let Some(file) = buffer.get(..r.a as usize) {
        let _ = write_output(out, err, file);
    }
}

// A space and a number that is no reply's, to standard output.
pub fn write_number<O: Write>(out: &mut O, n: u64)
    ensures { WrittenInPart (O.contents out.old) (O.contents out.new) (0x20 ∷ decimal n) }
{
    let mut text = [0u8; 21];
    let end = put_number(&mut text, 0, n);
    let _ = write_whole(out, &text[..end]);
}
