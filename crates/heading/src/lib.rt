// Line 1 of a file or a piece: its two texts, read and written. Definitions: notebook, specs/Canonical.antt (`head_row`, line 1 with its line
// end); specs/Reading.antt. Another line 1 moves together: `header` (records); where its length is another, `over` (packing) and the 13s of `cut`, `join` and
// `pieces`; where its first byte is, the J of `pieces::row_at`.
#![tactic(auto)]

ghost use Rattle.std.specs.Prelude.{◌≡◌};
ghost use Rattle.notebook.specs.Canonical.{head_row};
ghost use Rattle.heading.specs.Reading.{heading_of};

// Line 1 of a direction with its line end; provider: the direction is 1.
#[tactic(auto, using(crate::proofs::Laws::row_laws))]
pub fn heading_row(provider: bool) -> [u8; 13]
    ensures { result ≡ head_row provider }
{
    if provider {
        *b"JAHISTC04,1\r\n"
    } else {
        *b"JAHISTC04,2\r\n"
    }
}

// The direction of a row that is line 1 (true: 1).
pub fn read_heading(row: &[u8]) -> Option<bool>
    ensures { result ≡ heading_of row.now }
{
    let row = row.as_array::<13>()?;
    if *row == heading_row(true) {
        return Some(true);
    }
    if *row == heading_row(false) {
        return Some(false);
    }
    None
}
