// Days and eras (document 01, kind D): the Gregorian rule, the range, the table of eras, and the era form that is written. Definitions and laws; the
// one type here is a row of the table. `calendar` reads days from items, and has the code.
#![tactic(auto)]

// An era: its letter, the year before its year 1 times 10,000, and the first and the last day that are read under the letter.
#[derive(Clone, Copy)]
pub struct Era {
    pub letter: u8,
    pub before: u32,
    pub first: u32,
    pub last: u32,
}
