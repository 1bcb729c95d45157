// The pairs of items whose values depend on each other.
ghost use Rattle.std.specs.Prelude.{◌≡◌, ◌||◌};
ghost use Rattle.lists.specs.Lists.{empty, same};
ghost use Rattle.records.specs.Records.{or_empty, is_num};
ghost use Rattle.lines.specs.Details.{quantity as quantity_value, code_raw, form_raw};

// The kind of code, of drugs and of usages, that has none.
const NO_CODE: &[u8] = b"1";

// The units "for one dispensing", "days" and "times".
const ONCE: &[u8] = b"\x92\xb2\x8d\xdc";

const DAYS: &[u8] = b"\x93\xfa\x95\xaa";

const TIMES: &[u8] = b"\x89\xf1\x95\xaa";

// The code is empty exactly when its kind is empty or 1.
pub fn code_pair(kind: &[u8], code: &[u8]) -> bool
    ensures { result ≡ code_raw kind.now code.now }
{
    code.is_empty() == (kind.is_empty() | (kind == NO_CODE))
}

// "An empty quantity is let pass".
fn is_one(quantity: &[u8]) -> bool
    ensures { result ≡ or_empty (quantity_value quantity.now) (is_num (quantity_value quantity.now) 1) }
{
    match digits::short_value(quantity) {
        Some(value) => value == 1,
        None => true,
    }
}

// "An empty unit is let pass".
fn is_unit(unit: &[u8], text: &[u8]) -> bool
    ensures { result ≡ (empty unit.now || same unit.now text.now) }
{
    unit.is_empty() | (unit == text)
}

// The form of a 301 with its quantity and unit.
#[tactic(auto, using(crate::proofs::PairLaws::form_is))]
pub fn form_pair(form: &[u8], quantity: &[u8], unit: &[u8]) -> bool
    ensures { result ≡ form_raw form.now quantity.now unit.now }
{
    let Some(form) = digits::plain_number(form) else {
        return true;
    };
    match form {
        2 | 4 | 5 | 9 | 10 => is_one(quantity) & is_unit(unit, ONCE),
        1 => is_unit(unit, DAYS),
        3 => is_unit(unit, TIMES),
        6 | 7 => is_unit(unit, DAYS) | is_unit(unit, TIMES),
        _ => true,
    }
}
