// The table of records: for each record the items that follow its number.
// The rows are in src/rows.rt. Definition: records, specs/Table.antt; `row_of` is proved to give its rows, each as specs/Rows.antt finds it.
// A changed row of that table moves the record's row in src/rows.rt; a new record moves `row_of` too, where it gets an arm.
#![tactic(auto)]

mod rows;

ghost use Rattle.std.specs.Prelude.{◌≡◌, MatchOption};
ghost use Rattle.records.specs.Records.{no_row};
ghost use Rattle.table.specs.Rows.{paper_row, RowOf};

use items::Item;
use rows::{
    RECORD_1, RECORD_2, RECORD_3, RECORD_4, RECORD_5, RECORD_11, RECORD_15, RECORD_51, RECORD_55,
    RECORD_201, RECORD_281, RECORD_291, RECORD_301, RECORD_311, RECORD_391, RECORD_401, RECORD_411,
    RECORD_501, RECORD_601, RECORD_701,
};

/// The items of the record with this number, if the table has it.
#[tactic(auto, using(crate::proofs::RowLaws::row_laws))]
pub fn row_of(number: u32) -> Option<&'static [Item]>
    ensures { MatchOption result (paper_row number ≡ no_row) (λ items. RowOf number items.now) }
{
    match number {
        1 => Some(&RECORD_1),
        2 => Some(&RECORD_2),
        3 => Some(&RECORD_3),
        4 => Some(&RECORD_4),
        5 => Some(&RECORD_5),
        11 => Some(&RECORD_11),
        15 => Some(&RECORD_15),
        51 => Some(&RECORD_51),
        55 => Some(&RECORD_55),
        201 => Some(&RECORD_201),
        281 => Some(&RECORD_281),
        291 => Some(&RECORD_291),
        301 => Some(&RECORD_301),
        311 => Some(&RECORD_311),
        391 => Some(&RECORD_391),
        401 => Some(&RECORD_401),
        411 => Some(&RECORD_411),
        501 => Some(&RECORD_501),
        601 => Some(&RECORD_601),
        701 => Some(&RECORD_701),
        _ => None,
    }
}
