// Digits and short numbers: record numbers, RP values, brace values, the numbers of a record 911.
// Definitions: specs/Digits.antt and specs/Short.antt.
#![tactic(auto)]

ghost use Rattle.std.specs.Prelude.{◌≡◌};
ghost use Rattle.lists.specs.Lists.{all};
ghost use Rattle.digits.specs.Digits.{is_digit, number};
ghost use Rattle.digits.specs.Short.{digit, plain_number};

pub fn is_digit(b: u8) -> bool
    ensures { result ≡ is_digit b }
{
    b.is_ascii_digit()
}

pub fn all_digits(s: &[u8]) -> bool
    ensures { result ≡ all is_digit s.now }
{
    s.iter().all(|b| is_digit(*b))
}

// The value of a digit.
pub fn digit(b: u8) -> Option<u32>
    ensures { result ≡ digit b }
{
    if is_digit(b) {
        Some(u32::from(b - b'0'))
    } else {
        None
    }
}

// The value of one to three digits.
#[tactic(auto, using(crate::proofs::Reading::short_laws))]
pub fn short_value(s: &[u8]) -> Option<u32>
    ensures { result ≡ number s.now }
{
    match *s {
        [a] => digit(a),
        [a, b] => Some(10 * digit(a)? + digit(b)?),
        [a, b, c] => Some(100 * digit(a)? + 10 * digit(b)? + digit(c)?),
        _ => None,
    }
}

// The value of one to three digits with no leading zero.
#[tactic(auto, using(crate::proofs::Reading::plain_laws))]
pub fn plain_number(s: &[u8]) -> Option<u32>
    ensures { result ≡ plain_number s.now }
{
    if s.starts_with(b"0") {
        None
    } else {
        short_value(s)
    }
}
