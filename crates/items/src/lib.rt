// The kinds of items: whether an item may be as it is. One small function a kind, then the dispatch by the kind.
// Definitions: `fault` in records, specs/Items.antt; the kinds as the code names them: src/kinds.rt, specs/Kinds.antt. A new kind is a variant there, a
// function here, an arm of `kind_fault` and one of `item_end`. What a kind asks of characters (their width, their script, a blank at an end) it asks of
// the scripts that the reading of the characters tells.
#![tactic(auto)]

mod kinds;

ghost use Rattle.std.specs.Prelude.{◌≡◌, Some, None, cond, not, ◌&&◌, ◌||◌, ◌+◌, ◌≤◌, ◌<◌, eqb, length, get_or};
ghost use Rattle.lists.specs.Lists.{all, member, unless as unless_of};
ghost use Rattle.scanning.specs.Scans.{RunOf, Counted};
ghost use Rattle.replies.specs.Refusals.{number_of, fault_in};
ghost use Rattle.records.specs.Table.{N, X, R, required};
ghost use Rattle.records.specs.Items.{is_code, ends_wide, edge as edge_of, seven as seven_of, unhyphened, postal as postal_of, prefecture as prefecture_of, spelled_as, whole_part as whole_of, fraction_part as places_of, fraction as fraction_of, is_decimal as decimal_of, sized as sized_of, fault as fault_of};
ghost use Rattle.records.specs.Records.{item_fault};
ghost use Rattle.items.specs.Kinds.{authors, values_of, need_of, kind_of, item_of};
ghost use Rattle.items.specs.Ends.{Within, uniform_scripts, uniform_text, uniform_kind, sized_end, EndOf, SpelledAt, CodeRun, DigitAt, DigitFits};

pub use kinds::{Item, Kind, Need, Values};
use replies::Refusal;
use replies::Refusal::{Edge, Empty, Form, Long};
use scanning::{Run, Scripts};

// What the rules say of an item.
type Verdict = Result<(), Refusal>;

fn is_code(b: u8) -> bool
    ensures { result ≡ is_code b }
{
    // digits first: most bytes of codes are
    digits::is_digit(b) || matches!(b, b'A'..=b'Z' | b'a'..=b'z' | b'.' | b'-')
}

fn all_code(s: &[u8]) -> bool
    ensures { result ≡ all is_code s.now }
{
    s.iter().all(|b| is_code(*b))
}

// What all characters of an item of kind U or K have in common.
#[derive(Clone, Copy)]
enum Uniform {
    Width,
    Script,
}

// Kind U, of n bytes: all one-byte or all two-byte.
fn one_width(k: Scripts, n: usize) -> bool
    ensures { result ≡ eqb k.one n || eqb k.one 0 }
{
    (k.one == n) | (k.one == 0)
}

// Kind K, of n bytes: all one-byte, or all of one kana script with what both have.
fn one_script(k: Scripts, n: usize) -> bool
    requires { Within k n }
    ensures { result ≡ eqb k.one n || eqb (k.hiragana + k.either) n || eqb (k.katakana + k.either) n }
{
    (k.one == n) | (k.hiragana + k.either == n) | (k.katakana + k.either == n)
}

impl Uniform {
    // Whether characters of n bytes have it in common.
    fn holds(self, k: Scripts, n: usize) -> bool
        requires { Within k n }
        ensures { result ≡ uniform_scripts self k n }
    {
        match self {
            Uniform::Width => one_width(k, n),
            Uniform::Script => one_script(k, n),
        }
    }

    // The same of a whole item.
    #[tactic(auto, using(crate::proofs::TextLaws::told_none))]
    fn holds_in(self, s: &[u8]) -> bool
        ensures { result ≡ uniform_text self s.now }
    {
        match scanning::scripts_of(s) {
            Some(k) => self.holds(k, s.len()),
            None => false,
        }
    }
}

// Whether the last character is 8140h. In 8Ah 81h 40h these two bytes are the trail of a kanji and @: no character ends before them.
fn ends_wide(s: &[u8]) -> bool
    ensures { result ≡ ends_wide s.now }
{
    let last = s.len().saturating_sub(1);
    let before = s.len().saturating_sub(2);
    scanning::is_blank_pair(lists::byte_at(s, before), lists::byte_at(s, last))
        && scanning::all_chars(&s[..before])
}

#[tactic(auto, unfolding(records::specs::Items::edge))]
fn edge(s: &[u8]) -> bool
    ensures { result ≡ edge_of s.now }
{
    let n = s.len();
    let a = lists::byte_at(s, 0);
    let b = lists::byte_at(s, 1);
    let z = lists::byte_at(s, n.saturating_sub(1));
    let blank = scanning::is_blank_pair(a, b);
    let wide = ends_wide(s);
    (a == b' ')
        | blank
        | (z == b' ')
        | wide
        | ((2 <= n) & ((a == b'"') & (z == b'"')))
        | ((2 <= n) & ((a == b'\'') & (z == b'\'')))
}

#[tactic(auto, unfolding(records::specs::Items::seven))]
fn seven(s: &[u8]) -> bool
    ensures { result ≡ seven_of s.now }
{
    s.len() == 7 && digits::all_digits(s)
}

#[tactic(auto, using(crate::proofs::FormLaws::seven_laws))]
fn hyphened(s: &[u8]) -> bool
    ensures { result ≡ seven_of (unhyphened s.now) }
{
    s.len() == 8 && digits::all_digits(&s[..3]) && digits::all_digits(&s[4..])
}

#[tactic(auto, unfolding(records::specs::Items::postal))]
fn postal(s: &[u8]) -> bool
    ensures { result ≡ postal_of s.now }
{
    seven(s) || (lists::byte_at(s, 3) == b'-' && hyphened(s))
}

#[tactic(auto, using(crate::proofs::FormLaws::prefecture_laws))]
fn prefecture(s: &[u8]) -> bool
    ensures { result ≡ prefecture_of s.now }
{
    match digits::short_value(s) {
        Some(n) => (s.len() == 2) & ((1 <= n) & (n <= 47)),
        None => false,
    }
}

fn whole(w: usize, a: &[u8]) -> bool
    ensures { result ≡ whole_of w a.now }
{
    let n = a.len();
    (1 <= n && n <= w) && (digits::all_digits(a) && (n == 1 || a[0] != b'0'))
}

fn decimals(f: usize, b: &[u8]) -> bool
    ensures { result ≡ places_of f b.now }
{
    let n = b.len();
    (1 <= n && n <= f) && (digits::all_digits(b) && b[n - 1] != b'0')
}

#[tactic(auto, using(crate::proofs::FormLaws::fraction_some))]
fn fraction(f: usize, s: &[u8]) -> bool
    ensures { result ≡ fraction_of f s.now }
{
    s.is_empty() || decimals(f, &s[1..])
}

#[tactic(auto, using(crate::proofs::FormLaws::decimal_laws))]
fn decimal(w: usize, f: usize, s: &[u8]) -> bool
    ensures { result ≡ decimal_of w f s.now }
{
    let period = lists::find_byte(s, 0, b'.');
    whole(w, &s[..period]) && fraction(f, &s[period..])
}

fn is_author(n: u32) -> bool
    ensures { result ≡ member authors n }
{
    matches!(n, 1 | 2 | 8 | 9)
}

#[tactic(auto, using(crate::proofs::SetLaws::author_laws))]
fn author(s: &[u8]) -> bool
    ensures { result ≡ spelled_as authors s.now }
{
    match digits::plain_number(s) {
        Some(n) => is_author(n),
        None => false,
    }
}

#[tactic(auto, using(crate::proofs::SetLaws::among_laws))]
fn among(values: Values, s: &[u8]) -> bool
    ensures { result ≡ spelled_as (values_of values) s.now }
{
    match digits::plain_number(s) {
        Some(n) => values.contains(n),
        None => false,
    }
}

/// The fault that something has unless it is good.
pub fn unless<F: Copy>(good: bool, fault: F) -> Result<(), F>
    ensures { result ≡ cond good (Ok (record {})) (Err fault) }
{
    if good { Ok(()) } else { Err(fault) }
}

// The kinds N, U, X and K: too long, then an edge, then the form.
#[tactic(auto, unfolding(records::specs::Items::sized))]
fn sized(most: usize, s: &[u8], good: bool) -> Verdict
    ensures { fault_in result ≡ sized_of most s.now good }
{
    if most < s.len() {
        return Err(Long);
    }
    if edge(s) {
        return Err(Edge);
    }
    unless(good, Form)
}

// The fault of an item that is not empty, by its kind.
#[tactic(auto, unfolding(records::specs::Items::fault))]
fn kind_fault(kind: Kind, s: &[u8]) -> Verdict
    ensures { fault_in result ≡ fault_of (kind_of kind) s.now }
{
    match kind {
        Kind::Text(most) => sized(most, s, true),
        Kind::OneWidth(most) => sized(most, s, Uniform::Width.holds_in(s)),
        Kind::Kana(most) => sized(most, s, Uniform::Script.holds_in(s)),
        Kind::Code(most) => sized(most, s, all_code(s)),
        Kind::Author => unless(author(s), Form),
        Kind::Prefecture => unless(prefecture(s), Form),
        Kind::SevenDigits => unless(seven(s), Form),
        Kind::PostalCode => unless(postal(s), Form),
        Kind::Number => unless(matches!(digits::short_value(s), Some(1..)), Form),
        Kind::Weight => unless(decimal(3, 3, s), Form),
        Kind::Dose => unless(decimal(6, 5, s), Form),
        Kind::Date => unless(calendar::Day::read(s).is_some(), Form),
        Kind::Among(values) => unless(among(values, s), Form),
    }
}

/// What the rules say of an item of the table.
#[tactic(auto, unfolding(records::specs::Records::item_fault))]
pub fn item_fault(item: Item, provider: bool, s: &[u8]) -> Result<(), Refusal>
    ensures { fault_in result ≡ item_fault provider (item_of item) s.now }
{
    if s.is_empty() {
        return unless(!item.need.is_required(provider), Empty);
    }
    kind_fault(item.kind, s)
}

// ---- items at a position

// How far the bytes that a code may have go from a position on.
fn code_end(s: &[u8], from: usize) -> usize
    requires { from ≤ length s.now }
    ensures { CodeRun s.now from result }
{
    for (i, b) in s[from..].iter().enumerate() {
        if !is_code(*b) {
            return from + i;
        }
    }
    s.len()
}

// Where an empty item ends: where it begins, if it may be empty.
fn blank_end(need: Need, provider: bool, from: usize) -> Option<usize>
    ensures { result ≡ cond (required provider (need_of need)) None (Some from) }
{
    if need.is_required(provider) {
        None
    } else {
        Some(from)
    }
}

// Whether 8140h can stand at neither end of a run, of which z is the last byte: the run has no character of both kana scripts, or, as names of drugs
// often have 815Bh, which is of both too, neither its second byte nor its last is 40h.
fn no_wide_edge(k: Scripts, s: &[u8], from: usize, z: u8) -> bool
    requires { from < length s.now }
    ensures { result ≡ eqb k.either 0 || (not (eqb z 0x40) && not (eqb (get_or s.now (from + 1) 0) 0x40)) }
{
    k.either == 0 || (z != 0x40 && lists::byte_at(s, from + 1) != 0x40)
}

// Where a run that is not empty ends, if it is not too long and has no edge. A blank or a quote at an end is 8140h or a character of one byte below
// 28h: most runs have neither.
#[tactic(auto, using(crate::proofs::EndLaws::sized_laws))]
fn sized_end(most: usize, s: &[u8], from: usize, run: Run) -> Option<usize>
    requires run_of { RunOf s.now from run.end }
    requires counted { Counted s.now from run.end run.scripts }
    requires from_lt_end { from < run.end }
    ensures { result ≡ sized_end most s.now from run.end }
{
    let end = run.end;
    let k = run.scripts;
    if most < end - from {
        return None;
    }
    let a = s[from];
    let z = s[end - 1];
    if (k.one == 0) | ((0x28 <= a) & (0x28 <= z)) {
        if no_wide_edge(k, s, from, z) {
            return Some(end);
        }
    }
    if edge(&s[from..end]) { None } else { Some(end) }
}

// Kind N: too long, then an edge.
#[tactic(auto, using(crate::proofs::EndLaws::text_item_laws))]
fn text_item(most: usize, need: Need, provider: bool, s: &[u8], from: usize) -> Option<usize>
    requires { from ≤ length s.now }
    ensures { EndOf provider (record { kind = N most; need = need_of need }) s.now from result }
{
    let run = scanning::run_at(s, from);
    if run.end == from {
        return blank_end(need, provider, from);
    }
    sized_end(most, s, from, run)
}

// Kinds U and K: the scripts of the run, then as kind N.
#[tactic(auto, using(crate::proofs::EndLaws::uniform_item_laws))]
fn uniform_item(
    uniform: Uniform,
    most: usize,
    need: Need,
    provider: bool,
    s: &[u8],
    from: usize,
) -> Option<usize>
    requires { from ≤ length s.now }
    ensures { EndOf provider (record { kind = uniform_kind uniform most; need = need_of need }) s.now from result }
{
    let run = scanning::run_at(s, from);
    if run.end == from {
        return blank_end(need, provider, from);
    }
    if uniform.holds(run.scripts, run.end - from) {
        return sized_end(most, s, from, run);
    }
    None
}

// Kind X: a code has no edge, so its length and whether it must not be empty are all that is left to look at.
#[tactic(auto, using(crate::proofs::EndLaws::code_item_laws))]
fn code_item(most: usize, need: Need, provider: bool, s: &[u8], from: usize) -> Option<usize>
    requires { from ≤ length s.now }
    ensures { EndOf provider (record { kind = X most; need = need_of need }) s.now from result }
{
    let end = code_end(s, from);
    if end == from {
        return blank_end(need, provider, from);
    }
    if most < end - from { None } else { Some(end) }
}

// Any other kind: its bytes are those of a code (digits, a period, a hyphen, an era's letter), so that the run of these is looked at.
#[tactic(auto, using(crate::proofs::EndLaws::other_item_laws))]
fn other_item(kind: Kind, need: Need, provider: bool, s: &[u8], from: usize) -> Option<usize>
    requires { from ≤ length s.now }
    ensures { EndOf provider (record { kind = kind_of kind; need = need_of need }) s.now from result }
{
    let end = code_end(s, from);
    match item_fault(Item { kind, need }, provider, &s[from..end]) {
        Ok(()) => Some(end),
        Err(_) => None,
    }
}

// The value of a digit with a comma or 0Dh after it, which is an item of one byte.
#[tactic(auto, using(crate::proofs::DigitLaws::digit_laws))]
fn digit_at(s: &[u8], from: usize) -> Option<u32>
    requires { from ≤ length s.now }
    ensures { DigitAt s.now from result }
{
    if s.len() <= from + 1 {
        return None;
    }
    match s[from + 1] {
        b',' | b'\r' => digits::digit(s[from]),
        _ => None,
    }
}

// Whether an item of one digit has no fault, by its kind. False says nothing.
#[tactic(auto, using(crate::proofs::DigitLaws::fits_laws))]
fn digit_fits(kind: Kind, d: u32) -> bool
    ensures { DigitFits (kind_of kind) d result }
{
    match kind {
        Kind::Author => is_author(d),
        Kind::Weight | Kind::Dose => true,
        Kind::Among(values) => values.contains(d),
        _ => false,
    }
}

// The kinds of which most items are one digit. It is compiled into each arm of `item_end`, where the kind is a constant.
#[inline(always)]
#[tactic(auto, using(crate::proofs::EndLaws::end_digit))]
fn digit_item(kind: Kind, need: Need, provider: bool, s: &[u8], from: usize) -> Option<usize>
    requires { from ≤ length s.now }
    ensures { EndOf provider (record { kind = kind_of kind; need = need_of need }) s.now from result }
{
    if let Some(d) = digit_at(s, from)
        && digit_fits(kind, d)
    {
        return Some(from + 1);
    }
    other_item(kind, need, provider, s, from)
}

/// One to three digits from a position on: where they end, and their value.
#[derive(Clone, Copy, Debug, PartialEq, Eq)]
pub struct Spelled {
    pub end: usize,
    pub value: u32,
}

/// The digits at a position, if there are any. None are told of the last two bytes of all, which end no record.
#[tactic(auto, using(crate::proofs::NumberLaws::spelled_laws))]
pub fn spelled_at(s: &[u8], at: usize) -> Option<Spelled>
    requires { at ≤ length s.now }
    ensures { SpelledAt s.now at result }
{
    if s.len() <= at + 2 {
        return None;
    }
    let one = digits::digit(s[at])?;
    let Some(second) = digits::digit(s[at + 1]) else {
        return Some(Spelled {
            end: at + 1,
            value: one,
        });
    };
    let two = 10 * one + second;
    let Some(third) = digits::digit(s[at + 2]) else {
        return Some(Spelled {
            end: at + 2,
            value: two,
        });
    };
    Some(Spelled {
        end: at + 3,
        value: 10 * two + third,
    })
}

// Kind R.
#[tactic(auto, using(crate::proofs::NumberLaws::number_fine))]
fn number_item(need: Need, provider: bool, s: &[u8], from: usize) -> Option<usize>
    requires { from ≤ length s.now }
    ensures { EndOf provider (record { kind = R; need = need_of need }) s.now from result }
{
    if let Some(number) = spelled_at(s, from)
        && number.value != 0
    {
        return Some(number.end);
    }
    other_item(Kind::Number, need, provider, s, from)
}

/// Where the item that begins at a position ends, if it has no fault. None says nothing of the item: the line that it stands in is then read another
/// way.
pub fn item_end(item: Item, provider: bool, s: &[u8], from: usize) -> Option<usize>
    requires { from ≤ length s.now }
    ensures { EndOf provider (item_of item) s.now from result }
{
    let need = item.need;
    // Each arm names its kind again: an item that is handed on whole is copied to memory, whatever its kind.
    match item.kind {
        Kind::Text(most) => text_item(most, need, provider, s, from),
        Kind::Code(most) => code_item(most, need, provider, s, from),
        Kind::Number => number_item(need, provider, s, from),
        Kind::OneWidth(most) => uniform_item(Uniform::Width, most, need, provider, s, from),
        Kind::Kana(most) => uniform_item(Uniform::Script, most, need, provider, s, from),
        Kind::Author => digit_item(Kind::Author, need, provider, s, from),
        Kind::Weight => digit_item(Kind::Weight, need, provider, s, from),
        Kind::Dose => digit_item(Kind::Dose, need, provider, s, from),
        Kind::Among(values) => digit_item(Kind::Among(values), need, provider, s, from),
        Kind::Prefecture => other_item(Kind::Prefecture, need, provider, s, from),
        Kind::SevenDigits => other_item(Kind::SevenDigits, need, provider, s, from),
        Kind::PostalCode => other_item(Kind::PostalCode, need, provider, s, from),
        Kind::Date => other_item(Kind::Date, need, provider, s, from),
    }
}
