// What the order of records looks at in a record.
ghost use Rattle.std.specs.Prelude.{◌≡◌, drop};
ghost use Rattle.records.specs.Split.{items_of};
ghost use Rattle.lines.specs.Details.{rp_raw, day_raw, no_facts, details_raw};
ghost use Rattle.lines.specs.Items.{text_of};

use crate::pairs::{code_pair, form_pair};
use crate::split::Items;
use order::Facts;
use replies::Refusal;

// The value of an RP item, a fee schedule or a form, 0 where it is none.
#[tactic(auto, unfolding(crate::specs::Details::rp_raw))]
fn rp_value(s: &[u8]) -> u32
    ensures { result ≡ rp_raw s.now }
{
    digits::short_value(s).unwrap_or(0)
}

// The day of a date item, 0 where it is none.
#[tactic(auto, unfolding(crate::specs::Details::day_raw))]
fn day_value(s: &[u8]) -> u32
    ensures { result ≡ day_raw s.now }
{
    calendar::Day::read(s).map_or(0, |day| day.ymd)
}

// The facts of a record of which only the number counts.
fn no_facts(number: u32) -> Facts
    ensures { result ≡ no_facts number }
{
    Facts {
        number,
        rp: 0,
        day: 0,
        schedule: 0,
        form: 0,
        named: false,
    }
}

fn drug_facts(items: &Items) -> Result<Facts, Refusal>
    ensures { result ≡ details_raw 201 (drop 1 (items_of (text_of items.now))) }
{
    if !code_pair(items.item(5), items.item(6)) {
        return Err(Refusal::Pair);
    }
    Ok(Facts {
        rp: rp_value(items.item(1)),
        ..no_facts(201)
    })
}

fn usage_facts(items: &Items) -> Result<Facts, Refusal>
    ensures { result ≡ details_raw 301 (drop 1 (items_of (text_of items.now))) }
{
    let form = items.item(5);
    let coded = code_pair(items.item(6), items.item(7));
    if !(coded & form_pair(form, items.item(3), items.item(4))) {
        return Err(Refusal::Pair);
    }
    Ok(Facts {
        rp: rp_value(items.item(1)),
        form: rp_value(form),
        named: !items.item(2).is_empty(),
        ..no_facts(301)
    })
}

// The facts of a record whose pairs hold; else the pairs' refusal.
pub fn record_facts(number: u32, items: &Items) -> Result<Facts, Refusal>
    ensures { result ≡ details_raw number (drop 1 (items_of (text_of items.now))) }
{
    match number {
        5 => Ok(Facts {
            day: day_value(items.item(1)),
            ..no_facts(5)
        }),
        11 => Ok(Facts {
            schedule: rp_value(items.item(3)),
            ..no_facts(11)
        }),
        201 => drug_facts(items),
        301 => usage_facts(items),
        281 | 291 | 311 | 391 => Ok(Facts {
            rp: rp_value(items.item(1)),
            ..no_facts(number)
        }),
        _ => Ok(no_facts(number)),
    }
}
