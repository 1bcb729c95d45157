// The text of a line, and the line that begins at a position.
ghost use Rattle.std.specs.Prelude.{◌≡◌};
ghost use Rattle.characters.specs.Text.{is_stop};
ghost use Rattle.scanning.specs.Scans.{ScanOf, LineOf};

use crate::runs::run_end;

fn is_stop(a: u8) -> bool
    ensures { result ≡ is_stop a }
{
    matches!(a, 0x0d | 0x0a | 0x1a)
}

// A text: where it ends, whether it is characters, and how many commas it has.
#[derive(Clone, Copy, Debug, PartialEq, Eq)]
pub struct Scan {
    pub end: usize,
    pub good: bool,
    pub commas: usize,
}

// Where the first 0Dh, 0Ah or 1Ah from a position stands, or the end; whether all before it is characters; and how many of them are
// commas, the first sixteen with their places from the position on. None of the three is a character or a trail, so a run never
// passes one, after a bad byte too.
pub fn scan_text(stops: &mut [usize; 16], s: &[u8], at: usize) -> Scan
    ensures { ScanOf s.now at stops.new result }
{
    let mut i = at;
    let mut good = true;
    let mut commas = 0;
    // No `for`: a step is a run and the byte after it.
    while i < s.len() {
        let end = run_end(s, i);
        if s.len() <= end {
            return Scan { end, good, commas };
        }
        let b = s[end];
        if b == 0x2c {
            if commas < 16 {
                stops[commas] = end - at;
            }
            commas += 1;
        } else if is_stop(b) {
            return Scan { end, good, commas };
        } else {
            good = false;
        }
        i = end + 1;
    }
    Scan {
        end: i,
        good,
        commas,
    }
}

// The rule of line ends is broken.
#[derive(Clone, Copy, Debug, PartialEq, Eq)]
pub struct Broken;

// The line that begins at a position: its text, which 0Dh 0Ah follow, with the places of its commas, from its beginning; or none, where nothing
// is left, or 1Ah alone.
#[tactic(auto, using(crate::proofs::LineLaws::line_laws))]
pub fn line_at(stops: &mut [usize; 16], s: &[u8], at: usize) -> Result<Option<Scan>, Broken>
    ensures { LineOf s.now at stops.new result }
{
    if s.len() <= at {
        return Ok(None);
    }
    let text = scan_text(stops, s, at);
    let after = &s[text.end..];
    match after {
        [0x0d, 0x0a, ..] => Ok(Some(text)),
        [0x1a] if text.end == at => Ok(None),
        _ => Err(Broken),
    }
}
