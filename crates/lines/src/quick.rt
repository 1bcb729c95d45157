// Almost every line has no fault, so its items are looked at while its end is looked for. Where that fails, nothing is said of the line: it is
// read again from its beginning, characters first, in the order of document 01's table.
ghost use Rattle.std.specs.Prelude.{◌≡◌, ◌≤◌, length, IfSome};
ghost use Rattle.scanning.specs.Scans.{RunOf};
ghost use Rattle.lines.specs.Found.{LineEndsIf, QuickLine, SoundAt};

use crate::Numbered;
use items::Item;

// Whether 0Dh 0Ah stand at a position.
fn ends_line(s: &[u8], at: usize) -> bool
    requires { at ≤ length s.now }
    ensures { LineEndsIf s.now at result }
{
    matches!(&s[at..], [b'\r', b'\n', ..])
}

// The items of a line that begins at a position, each after its comma; from: where its number ends. Where its text ends, if all items are there
// without a fault, and 0Dh 0Ah after them.
fn quick_items(
    row: &[Item],
    provider: bool,
    stops: &mut [usize; 16],
    s: &[u8],
    at: usize,
    from: usize,
) -> Option<usize>
    requires few { length row.now ≤ 15 }
    requires run_of { RunOf s.now at from }
    ensures { IfSome result (QuickLine provider row.now s.now at from stops.new) }
{
    let mut end = from;
    for (j, item) in row.iter().enumerate() {
        if s.len() <= end || s[end] != b',' {
            return None;
        }
        stops[j] = end - at;
        end = items::item_end(*item, provider, s, end + 1)?;
    }
    if ends_line(s, end) { Some(end) } else { None }
}

pub fn quick_line(provider: bool, stops: &mut [usize; 16], s: &[u8], at: usize) -> Option<Numbered>
    ensures { IfSome result (SoundAt provider s.now at stops.new) }
{
    // a record's number has no leading zero
    if s.len() <= at || s[at] == b'0' {
        return None;
    }
    let number = items::spelled_at(s, at)?;
    let row = table::row_of(number.value)?;
    let end = quick_items(row, provider, stops, s, at, number.end)?;
    Some(Numbered {
        number: number.value,
        end,
        commas: row.len(),
    })
}
