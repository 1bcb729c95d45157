// One character: the byte that begins it and the byte after it.
ghost use Rattle.std.specs.Prelude.{◌≡◌, true, false, ◌&&◌, [], ◌∷◌, ◌+◌, ◌≤◌, ◌%◌};
ghost use Rattle.lists.specs.Lists.{within};
ghost use Rattle.characters.specs.Cells.{allowed, trail_script, trail_cell, trail_row, is_trail};
ghost use Rattle.characters.specs.Scanning.{char_of};

use crate::cells::{first_rows, kanji_cell, next_rows, other};
use characters::Char;

// A lead's first row and a trail: the answer for the row and the cell that they tell. It is compiled anew for rows 1 to 4, for rows 5 to 8 and for
// kanji, each with its own rows. Here and in `in_rows` the matches lie in one another, since a flat one compiles to more instructions.
fn by_trail<T: Drop, F: Fn(u8, u8) -> T>(row: u8, b: u8, none: T, of: F) -> T
    requires row_bound { row ≤ 93 }
    requires of_cell { is_trail b ≡ true → F.pre of (row + trail_row b) (trail_cell b) }
    ensures cell { is_trail b ≡ true → F.post of (row + trail_row b) (trail_cell b) result }
    ensures none { is_trail b ≡ false → result ≡ none }
{
    match b {
        0x9f..=0xfc => of(row + 1, b - 0x9e),
        _ => match b {
            0x40..=0x7e => of(row, b - 0x3f),
            0x80..=0x9e => of(row, b - 0x40),
            _ => none,
        },
    }
}

// Whether a byte can be a trail: whether it has a cell.
fn is_trail(b: u8) -> bool
    ensures { result ≡ is_trail b }
{
    matches!(b, 0x40..=0xfc) && b != 0x7f
}

// Rows 17 to 46 have all 94 cells, so that a lead with two of them makes a character with any trail.
#[tactic(auto, unfolding(characters::specs::Cells::allowed, characters::specs::Cells::full_row))]
fn kanji_pair(row: u8, b: u8) -> bool
    requires le_row { 9 ≤ row }
    requires row_bound { row ≤ 93 }
    ensures { result ≡ (is_trail b && allowed (row + trail_row b) (trail_cell b)) }
{
    match row {
        17..=45 => is_trail(b),
        _ => by_trail(row, b, false, kanji_cell),
    }
}

// A lead's first row is odd.
#[tactic(auto, unfolding(characters::specs::Cells::trail_script, characters::specs::Cells::cell_script))]
fn in_rows(row: u8, b: u8) -> Char
    requires row_bound { row ≤ 93 }
    requires row_value { row % 2 ≡ 1 }
    ensures { result ≡ trail_script row b }
{
    match row {
        0..=8 => match row {
            0..=4 => by_trail(row, b, Char::Bad, first_rows),
            _ => by_trail(row, b, Char::Bad, next_rows),
        },
        _ => other(kanji_pair(row, b)),
    }
}

// Any first byte but the leads of rows 1 to 62.
#[tactic(auto, unfolding(characters::specs::Cells::pair_script, characters::specs::Cells::trail_script, characters::specs::Cells::cell_script))]
fn other_char(a: u8, b: u8) -> Char
    requires { within 0x81 0x9f a ≡ false }
    ensures { result ≡ char_of (a ∷ b ∷ []) }
{
    match a {
        0x20..=0x7e | 0xa1..=0xdf => Char::One,
        0xe0..=0xef => other(kanji_pair(2 * (a - 0xc1) + 1, b)),
        _ => Char::Bad,
    }
}

// The character that a byte begins, b the byte after it.
#[tactic(auto, unfolding(characters::specs::Cells::pair_script))]
pub fn char_of(a: u8, b: u8) -> Char
    ensures { result ≡ char_of (a ∷ b ∷ []) }
{
    match a {
        0x81..=0x9f => in_rows(2 * (a - 0x81) + 1, b),
        _ => other_char(a, b),
    }
}
