// The allowed cells of JIS X 0208-1983, each row with its own `match` over cells. In rows 1 to 8 a cell's script is told with it.
#![tactic(auto, unfolding(characters::specs::Cells::cell_script, characters::specs::Cells::allowed, characters::specs::Cells::full_row, characters::specs::Cells::part_row))]

ghost use Rattle.std.specs.Prelude.{◌≡◌, cond, ◌≤◌};
ghost use Rattle.characters.specs.declared.Char.TheVariants.{Other, Bad};
ghost use Rattle.characters.specs.Cells.{row2, row3, allowed, cell_script};

use characters::Char;

fn row2_cell(cell: u8) -> bool
    ensures { result ≡ row2 cell }
{
    matches!(cell, 1..=14 | 26..=33 | 42..=48 | 60..=74 | 82..=89 | 94)
}

fn row3_cell(cell: u8) -> bool
    ensures { result ≡ row3 cell }
{
    matches!(cell, 16..=25 | 33..=58 | 65..=90)
}

// A character of no script of its own.
pub fn other(good: bool) -> Char
    ensures { result ≡ cond good Other Bad }
{
    if good { Char::Other } else { Char::Bad }
}

// Row 1: marks, of which 8140h and 815Bh belong to both kana scripts.
fn row1_cell(cell: u8) -> Char
    ensures { result ≡ cell_script 1 cell }
{
    match cell {
        1 | 28 => Char::Either,
        2..=27 | 29..=94 => Char::Other,
        _ => Char::Bad,
    }
}

// Rows 1 to 4: marks, letters and hiragana.
pub fn first_rows(row: u8, cell: u8) -> Char
    requires { row ≤ 4 }
    ensures { result ≡ cell_script row cell }
{
    match row {
        1 => row1_cell(cell),
        2 => other(row2_cell(cell)),
        3 => other(row3_cell(cell)),
        4 => match cell {
            1..=83 => Char::Hiragana,
            _ => Char::Bad,
        },
        _ => Char::Bad,
    }
}

// Rows 5 to 8: katakana and other letters.
pub fn next_rows(row: u8, cell: u8) -> Char
    requires le_row { 5 ≤ row }
    requires row_bound { row ≤ 8 }
    ensures { result ≡ cell_script row cell }
{
    match row {
        5 => match cell {
            1..=86 => Char::Katakana,
            _ => Char::Bad,
        },
        6 => match cell {
            1..=24 | 33..=56 => Char::Other,
            _ => Char::Bad,
        },
        7 => match cell {
            1..=33 | 49..=81 => Char::Other,
            _ => Char::Bad,
        },
        8 => match cell {
            1..=32 => Char::Other,
            _ => Char::Bad,
        },
        _ => Char::Bad,
    }
}

// Rows 16 to 84: kanji.
pub fn kanji_cell(row: u8, cell: u8) -> bool
    requires { 9 ≤ row }
    ensures { result ≡ allowed row cell }
{
    match row {
        16..=46 | 48..=83 => matches!(cell, 1..=94),
        47 => matches!(cell, 1..=51),
        84 => matches!(cell, 1..=4),
        _ => false,
    }
}
