// The days of the medication notebook: read from every spelling, written in the era form. Definitions: specs/Day.antt and
// specs/Era.antt, and crate eras. A new era moves `eras` there and ERAS here, by one row each.
#![tactic(auto)]

ghost use Rattle.std.specs.Prelude.{◌≡◌, ◌≤◌, ◌<◌, eqb, length};
ghost use Rattle.std.specs.List.{find};
ghost use Rattle.digits.specs.Short.{number_from};
ghost use Rattle.eras.specs.Day.{leap, month_length};
ghost use Rattle.calendar.specs.Day.{gregorian};
ghost use Rattle.eras.specs.Era.{eras, has_letter, has_begun, era_on, write_day};
ghost use Rattle.calendar.specs.Era.{from_era, read_day};
ghost use Rattle.calendar.specs.Form.{TellsForm};

use eras::Era;

// A day, as the number YYYYMMDD of the Gregorian calendar: the order of the numbers is the order of the days.
#[derive(Clone, Copy, Debug, PartialEq, Eq, PartialOrd, Ord)]
pub struct Day {
    pub ymd: u32,
}

// No era, as `no_era` of eras, specs/Era.antt, is it: what a number before the first day is written under.
const NO_ERA: Era = Era {
    letter: 0,
    before: 0,
    first: 1,
    last: 0,
};

// The eras, the newest first.
const ERAS: [Era; 5] = [
    Era {
        letter: b'R',
        before: 20180000,
        first: 20190501,
        last: 20871231,
    },
    Era {
        letter: b'H',
        before: 19880000,
        first: 19890108,
        last: 20871231,
    },
    Era {
        letter: b'S',
        before: 19250000,
        first: 19261225,
        last: 19890107,
    },
    Era {
        letter: b'T',
        before: 19110000,
        first: 19120730,
        last: 19261224,
    },
    Era {
        letter: b'M',
        before: 18670000,
        first: 18730101,
        last: 19120729,
    },
];

// The length of each month of a common year; there is no month 0.
const LENGTHS: [u32; 13] = [0, 31, 28, 31, 30, 31, 30, 31, 31, 30, 31, 30, 31];

// The number that at most eight digits spell.
#[tactic(auto, using(crate::proofs::Steps::spelled_laws))]
fn digits_value(s: &[u8]) -> Option<u32>
    requires { length s.now ≤ 8 }
    ensures { result ≡ number_from 0 s.now }
{
    let mut n = 0;
    for b in s {
        n = 10 * n + digits::digit(*b)?;
    }
    Some(n)
}

#[tactic(auto, unfolding(eras::specs::Day::leap))]
fn is_leap(y: u32) -> bool
    ensures { result ≡ leap y }
{
    y % 4 == 0 && (y % 100 != 0 || y % 400 == 0)
}

#[tactic(auto, unfolding(eras::specs::Day::month_length))]
fn month_length(y: u32, m: usize) -> u32
    ensures { result ≡ month_length y m }
{
    if m == 2 && is_leap(y) {
        29
    } else {
        LENGTHS.get(m).copied().unwrap_or(0)
    }
}

fn era_by_letter(letter: u8) -> Option<Era>
    ensures { result ≡ find (has_letter letter) eras }
{
    ERAS.iter().find(|e| e.letter == letter).copied()
}

fn era_of_day(n: u32) -> Option<Era>
    ensures { result ≡ find (has_begun n) eras }
{
    ERAS.iter().find(|e| e.first <= n).copied()
}

// Whether a number's day is written under a letter.
#[tactic(auto, using(crate::proofs::Steps::era_on_first))]
fn is_under(n: u32, letter: u8) -> bool
    ensures { 0 < letter → result ≡ eqb (era_on n).letter letter }
{
    era_of_day(n).is_some_and(|e| e.letter == letter)
}

impl Day {
    pub const FIRST: Day = Day { ymd: 18730101 };

    pub const LAST: Day = Day { ymd: 20871231 };

    // The day that the number YYYYMMDD names.
    #[tactic(auto, unfolding(crate::specs::Day::gregorian, eras::specs::Day::is_day, eras::specs::Day::is_real))]
    pub fn from_gregorian(n: u32) -> Option<Day>
        ensures { result ≡ gregorian n }
    {
        let length = month_length(n / 10000, (n / 100 % 100) as usize);
        if (Day::FIRST.ymd..=Day::LAST.ymd).contains(&n) && (1..=length).contains(&(n % 100)) {
            Some(Day { ymd: n })
        } else {
            None
        }
    }

    // The day that an era's letter and the number YYMMDD name.
    #[tactic(auto, using(crate::proofs::Steps::era_of_first), unfolding(crate::specs::Era::from_era, crate::specs::Era::in_era))]
    pub fn from_era(letter: u8, n: u32) -> Option<Day>
        ensures { result ≡ from_era letter n }
    {
        if 999999 < n {
            return None;
        }
        let e = era_by_letter(letter)?;
        let ymd = e.before + n;
        if (e.first..=e.last).contains(&ymd) {
            Day::from_gregorian(ymd)
        } else {
            None
        }
    }

    // The day that an item of kind D spells.
    #[tactic(auto, using(crate::proofs::Steps::read_laws))]
    pub fn read(s: &[u8]) -> Option<Day>
        ensures { result ≡ read_day s.now }
    {
        match s.len() {
            8 => Day::from_gregorian(digits_value(s)?),
            7 => Day::from_era(s[0], digits_value(&s[1..])?),
            _ => None,
        }
    }

    // Whether a date of seven bytes is what is written for its day: its letter is that of the newest era that has begun. Where that is so on the last
    // day that is read under the letter, it is so on every day; else the day is asked for.
    #[tactic(auto, using(crate::proofs::EraForm::form_laws))]
    pub fn is_written_form(s: &[u8]) -> bool
        requires { length s.now ≡ 7 }
        ensures { TellsForm result s.now }
    {
        let letter = s[0];
        let Some(e) = era_by_letter(letter) else {
            return false;
        };
        if is_under(e.last, letter) {
            return true;
        }
        match digits_value(&s[1..]) {
            Some(k) => k <= 999999 && is_under(e.before + k, letter),
            None => false,
        }
    }

    // The era form of the day.
    #[tactic(auto, using(crate::proofs::Steps::era_on_first), unfolding(eras::specs::Era::write_day))]
    pub fn era_form(self) -> [u8; 7]
        ensures { result ≡ write_day self.ymd }
    {
        let n = self.ymd;
        let e = era_of_day(n).unwrap_or(NO_ERA);
        let k = n - e.before;
        [
            e.letter,
            (k / 100000 % 10 + 48) as u8,
            (k / 10000 % 10 + 48) as u8,
            (k / 1000 % 10 + 48) as u8,
            (k / 100 % 10 + 48) as u8,
            (k / 10 % 10 + 48) as u8,
            (k % 10 + 48) as u8,
        ]
    }
}
