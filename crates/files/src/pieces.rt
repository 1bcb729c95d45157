// The pieces that a file was cut in, one after another.
ghost use Rattle.std.specs.Prelude.{◌≤◌, ◌<◌, length};
ghost use Rattle.std.specs.Iterator.{at_most};

#[derive(Drop)]
pub struct Pieces<'a> {
    rest: &'a [u8],
    // How many bytes no row is looked for in: all but the last of the first piece's line 1.
    past: usize,
    ghost few: { past ≤ 12 },
}

impl<'a> Pieces<'a> {
    pub fn of(bytes: &'a [u8]) -> Self {
        Pieces {
            rest: bytes,
            past: 12,
        }
    }
}

impl<'a> Iterator for Pieces<'a> {
    type Item = &'a [u8];

    ghost remaining = { λ s. at_most (length s.rest.now) };

    fn next(&mut self) -> Option<&'a [u8]> {
        if self.rest.is_empty() {
            return None;
        }
        let (piece, rest) = self.rest.split_at(piece_end(self.rest, self.past));
        self.rest = rest;
        self.past = 0;
        Some(piece)
    }
}

// Where the first piece ends: where a later row equals its line 1, which has 13 bytes, or at the end. A record begins with a digit, so it is no
// line 1; that the row begins there matters, as a record can end like one.
fn piece_end(bytes: &[u8], past: usize) -> usize
    requires some { 0 < length bytes.now }
    requires few { past ≤ 12 }
    ensures lower_bound { 0 < result }
    ensures upper_bound { result ≤ length bytes.now }
{
    let Some((line, _)) = bytes.split_at_checked(13) else {
        return bytes.len();
    };
    bytes[past..]
        .windows(14)
        .position(|window| window[0] == b'\n' && &window[1..] == line)
        .map_or(bytes.len(), |row_end| past + row_end + 1)
}
