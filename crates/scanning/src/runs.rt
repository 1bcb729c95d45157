// Characters one after another, and the bytes that those of each script take.
ghost use Rattle.std.specs.Prelude.{◌≡◌, ◌&&◌, ◌+◌, ◌≤◌, eqb, length};
ghost use Rattle.characters.specs.Text.{all_chars};
ghost use Rattle.scanning.specs.Scans.{RunOf, RunEnds, SumFits, sum_of, Counted, Finished, ToldOf};

use crate::chars::char_of;
use characters::Char;
use std::ops::AddAssign;

// How many bytes the characters of each script take. Those of no script of their own are what is left.
#[derive(Clone, Copy, Debug, Default, PartialEq, Eq)]
pub struct Scripts {
    pub one: usize,
    pub hiragana: usize,
    pub katakana: usize,
    pub either: usize,
}

impl AddAssign for Scripts {
    ghost can_add_assign = { λ a b. SumFits a b };

    ghost add_assign_gives = { λ a b r. r ≡ sum_of a b };

    fn add_assign(&mut self, other: Scripts) {
        self.one += other.one;
        self.hiragana += other.hiragana;
        self.katakana += other.katakana;
        self.either += other.either;
    }
}

// Characters from a position on: where they end, and their scripts.
#[derive(Clone, Copy, Debug, PartialEq, Eq)]
pub struct Run {
    pub end: usize,
    pub scripts: Scripts,
}

// The run that has come to the last byte, or past it. A last byte is read with 0 after it, which is no trail: it is a character of one byte, or none.
#[tactic(auto, using(crate::proofs::RunLaws::last_laws))]
fn last_run(s: &[u8], i: usize, seen: Scripts) -> Run
    requires s_len_bound { length s.now ≤ i + 1 }
    requires one_le_i { seen.one ≤ i }
    ensures { Finished s.now i seen result }
{
    match s.get(i) {
        Some(&a) if a != 0x2c && char_of(a, 0) == Char::One => Run {
            end: i + 1,
            scripts: Scripts {
                one: seen.one + 1,
                ..seen
            },
        },
        _ => Run {
            end: i,
            scripts: seen,
        },
    }
}

// How far characters other than commas go from a position on, with their scripts: to a comma, to a byte that begins none, or to the end. Kanji and all
// others of no kana script are not counted, and so cost nothing more than their reading.
pub fn run_at(s: &[u8], from: usize) -> Run
    requires { from ≤ length s.now }
    ensures run { RunOf s.now from result.end }
    ensures ends { RunEnds s.now result.end }
    ensures counted { Counted s.now from result.end result.scripts }
{
    let last = s.len().saturating_sub(1);
    let mut i = from;
    let mut seen = Scripts::default();
    // No `for`: a step is one byte or two.
    while i < last {
        let a = s[i];
        match char_of(a, s[i + 1]) {
            Char::One => {
                if a == 0x2c {
                    return Run {
                        end: i,
                        scripts: seen,
                    };
                }
                seen.one += 1;
                i += 1;
            }
            Char::Hiragana => {
                seen.hiragana += 2;
                i += 2;
            }
            Char::Katakana => {
                seen.katakana += 2;
                i += 2;
            }
            Char::Either => {
                seen.either += 2;
                i += 2;
            }
            Char::Other => i += 2,
            Char::Bad => return Run {
                end: i,
                scripts: seen,
            },
        }
    }
    last_run(s, i, seen)
}

// Where that run ends.
pub fn run_end(s: &[u8], from: usize) -> usize
    requires { from ≤ length s.now }
    ensures run { RunOf s.now from result }
    ensures ends { RunEnds s.now result }
{
    run_at(s, from).end
}

// The scripts of a whole list, if all of it is characters.
pub fn scripts_of(s: &[u8]) -> Option<Scripts>
    ensures { ToldOf s.now result }
{
    let mut i = 0;
    let mut seen = Scripts::default();
    // No `for`: a step is a run.
    loop {
        let run = run_at(s, i);
        seen += run.scripts;
        match s.get(run.end) {
            None => return Some(seen),
            Some(0x2c) => seen.one += 1,
            Some(_) => return None,
        }
        i = run.end + 1;
    }
}

// Whether all of it is characters.
pub fn all_chars(s: &[u8]) -> bool
    ensures { result ≡ all_chars s.now }
{
    scripts_of(s).is_some()
}

// Whether two bytes are the character 8140h: of the two in both kana scripts the one with this trail.
#[tactic(auto, using(crate::proofs::RunLaws::blank_laws))]
pub fn is_blank_pair(a: u8, b: u8) -> bool
    ensures { result ≡ (eqb a 0x81 && eqb b 0x40) }
{
    b == 0x40 && scripts_of(&[a, b]).is_some_and(|k| k.either == 2)
}
