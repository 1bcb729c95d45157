// Writing into a buffer that the caller lends. Every writer has the contract `Wrote` (specs/Buffers.antt): the list that stands from
// an index on, all else as it was, and the index after it handed back. proofs/Runs.antt joins one writing to the next (`then`), takes
// a loop's turn (`carry`), and reads a written front back (`front`).
#![tactic(auto)]

mod room;

ghost use Rattle.std.specs.Prelude.{◌≡◌, [], ◌∷◌, ◌+◌, ◌<◌};
ghost use Rattle.digits.specs.Digits.{spell};
ghost use Rattle.buffers.specs.Buffers.{Room, Wrote};

pub use room::{ANY, MIDDLING, SHORT, with_room};

// One byte.
pub fn put_byte(out: &mut [u8], at: usize, b: u8) -> usize
    requires { Room out.old at (b ∷ []) }
    ensures { Wrote out.old out.new at result (b ∷ []) }
{
    out[at] = b;
    at + 1
}

// All elements of w. By a loop, since the library's `copy_from_slice` is C's memmove, which an archive for C would then ask its host for.
#[tactic(auto, using(crate::proofs::Runs::copying_laws))]
pub fn put_all<E: Copy>(out: &mut [E], at: usize, w: &[E]) -> usize
    requires { Room out.old at w.now }
    ensures { Wrote out.old out.new at result w.now }
{
    for i in 0..w.len() {
        out[at + i] = w[i];
    }
    at + w.len()
}

// The byte of a digit.
fn digit(v: u32) -> u8
    requires { v < 10 }
    ensures { result ≡ 48 + v }
{
    b'0' + v as u8
}

// A number below 1,000, without leading zeros.
#[tactic(auto, using(crate::proofs::Runs::spell_1, crate::proofs::Runs::spell_2, crate::proofs::Runs::spell_3))]
pub fn put_number(out: &mut [u8], at: usize, v: u32) -> usize
    requires v_bound { v < 1000 }
    requires room { Room out.old at (spell v) }
    ensures { Wrote out.old out.new at result (spell v) }
{
    match v {
        0..=9 => put_all(out, at, &[digit(v)]),
        10..=99 => put_all(out, at, &[digit(v / 10), digit(v % 10)]),
        _ => put_all(
            out,
            at,
            &[digit(v / 100), digit(v / 10 % 10), digit(v % 10)],
        ),
    }
}
