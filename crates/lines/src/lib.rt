// One record line: its items, its fault, and the facts of a record that the order of records looks at.
// Definitions: records, specs/Records.antt (the fault); notebook, specs/Facts.antt (the facts); specs/Line.antt (a line by its commas);
// specs/Details.antt (pairs and facts by the items' bytes); specs/Found.antt (what stands at a position, which is the answer of `read_line`).
#![tactic(auto)]

mod facts;
mod pairs;
mod quick;
mod split;

ghost use Rattle.std.specs.Prelude.{◌≡◌, ◌≤◌, length, drop, map};
ghost use Rattle.replies.specs.Refusals.{fault_in};
ghost use Rattle.records.specs.Split.{items_of};
ghost use Rattle.records.specs.Records.{items_fault};
ghost use Rattle.items.specs.Kinds.{item_of};
ghost use Rattle.lines.specs.Items.{text_of};
ghost use Rattle.lines.specs.Found.{NumberOf, FoundOf, ReadOf};

use items::Item;
use quick::quick_line;
use replies::Refusal;
pub use split::{Items, Span};

// ---- a line's number and items

// The first fault of the items after the number, item by item from the left.
fn items_fault(row: &[Item], provider: bool, items: &Items) -> Result<(), Refusal>
    requires few { length row.now ≤ 15 }
    requires count { items.now.commas ≡ length row.now }
    ensures { fault_in result ≡ items_fault provider (map item_of row.now) (drop 1 (items_of (text_of items.now))) }
{
    for (j, item) in row.iter().enumerate() {
        items::item_fault(*item, provider, items.item(j + 1))?;
    }
    Ok(())
}

// The record's number, if neither it nor an item has a fault. In the order of document 01's table: 6 or 5, 7, then the items from the left.
fn number_of(provider: bool, items: &Items) -> Result<u32, Refusal>
    ensures { NumberOf provider (text_of items.now) result }
{
    let Some(number) = digits::plain_number(items.item(0)) else {
        return Err(Refusal::Record);
    };
    if number == 911 {
        return Err(Refusal::Piece);
    }
    let Some(row) = table::row_of(number) else {
        return Err(Refusal::Record);
    };
    if items.commas != row.len() {
        return Err(Refusal::Items);
    }
    items_fault(row, provider, items)?;
    Ok(number)
}

// ---- lines at a position

/// A line without a fault in characters, number and items: its record's number, where its text ends, and how many commas it has.
#[derive(Clone, Copy)]
pub struct Numbered {
    pub number: u32,
    pub end: usize,
    pub commas: usize,
}

// The slow way to the line at a position: its end and its characters first.
fn slow_line(
    provider: bool,
    stops: &mut [usize; 16],
    s: &[u8],
    at: usize,
) -> Result<Option<Numbered>, Refusal>
    ensures { FoundOf provider s.now at stops.new result }
{
    match scanning::line_at(stops, s, at) {
        Err(scanning::Broken) => Err(Refusal::LineEnd),
        Ok(None) => Ok(None),
        Ok(Some(scanning::Scan { end, good, commas })) => {
            if !good {
                return Err(Refusal::Character);
            }
            let items = Items {
                file: s,
                at,
                end,
                stops,
                commas,
            };
            let number = number_of(provider, &items)?;
            Ok(Some(Numbered {
                number,
                end,
                commas,
            }))
        }
    }
}

fn find_line(
    provider: bool,
    stops: &mut [usize; 16],
    s: &[u8],
    at: usize,
) -> Result<Option<Numbered>, Refusal>
    ensures { FoundOf provider s.now at stops.new result }
{
    match quick_line(provider, stops, s, at) {
        Some(line) => Ok(Some(line)),
        None => slow_line(provider, stops, s, at),
    }
}

/// A line without a fault: its record's facts, where its text ends, and how many commas it has.
#[derive(Clone, Copy)]
pub struct Line {
    pub facts: order::Facts,
    pub end: usize,
    pub commas: usize,
}

/// Reads the line at a position, where a row begins; stops: the places of its commas, from its beginning. None: no line is left. The pairs
/// come last.
pub fn read_line(
    provider: bool,
    stops: &mut [usize; 16],
    s: &[u8],
    at: usize,
) -> Result<Option<Line>, Refusal>
    ensures { ReadOf provider s.now at stops.new result }
{
    let Some(
        Numbered {
            number,
            end,
            commas,
        },
    ) = find_line(provider, stops, s, at)?
    else {
        return Ok(None);
    };
    let items = Items {
        file: s,
        at,
        end,
        stops,
        commas,
    };
    let facts = facts::record_facts(number, &items)?;
    Ok(Some(Line { facts, end, commas }))
}
