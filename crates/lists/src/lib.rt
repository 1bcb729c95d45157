// The base of every other crate: tests and cuts of byte lists (specs/Lists.antt) with their laws (proofs/), and a byte read at an
// index that may lie past the end. A crate above this one names these and makes no second definition of its own.
#![tactic(auto)]

ghost use Rattle.std.specs.Prelude.{◌≡◌, ◌==◌, get_or, position};
ghost use Rattle.lists.specs.Searching.{find_from};

// The byte at an index, 0 past the end.
pub fn byte_at(s: &[u8], i: usize) -> u8
    ensures { result ≡ get_or s.now i 0 }
{
    s.get(i).copied().unwrap_or(0)
}

// Where the byte c first stands, if it does.
fn place_of(s: &[u8], c: u8) -> Option<usize>
    ensures { result ≡ position (λ b. b == c) s.now }
{
    s.iter().position(|b| *b == c)
}

// Where the byte c first stands from a position on, or the end.
#[tactic(auto, using(crate::proofs::Loops::find_laws))]
pub fn find_byte(s: &[u8], at: usize, c: u8) -> usize
    ensures { result ≡ find_from c s.now at }
{
    match s.get(at..) {
        Some(rest) => at + place_of(rest, c).unwrap_or(rest.len()),
        None => at,
    }
}
