// The pieces of a cut notebook: the record 911, and the rows of bytes that are pieces. A row is cut after each 0Ah, so that a 1Ah
// between two pieces stands at the front of the next piece's line 1. Definitions: division, specs/Marks.antt and
// specs/Pieces.antt; what the code answers, in their words: specs/Answers.antt.
#![tactic(auto)]

ghost use Rattle.std.specs.Prelude.{◌≡◌, ◌==◌, ◌+◌, ◌≤◌, ◌<◌, ◌&&◌, true, length, drop, position, nat_lt};
ghost use Rattle.std.specs.List.{fold};
ghost use Rattle.characters.specs.Text.{is_stop, text};
ghost use Rattle.characters.specs.Rows.{is_line};
ghost use Rattle.records.specs.Records.{is_mark};
ghost use Rattle.division.specs.Marks.{valid_id};
ghost use Rattle.pieces.specs.Answers.{RowAt, KindIs, RowIs, Skipped, ItemIs, MarkIs};

// "A valid ID is 14 digits and nothing else."
#[tactic(auto, unfolding(division::specs::Marks::valid_id))]
pub fn valid_id(id: &[u8]) -> bool
    ensures { result ≡ valid_id id.now }
{
    id.len() == 14 && digits::all_digits(id)
}

// The number of a record 911.
const NUMBER: &[u8] = b"911";

// "A record 911 is a line that is 911 or begins with 911 and a comma."
#[tactic(auto, using(crate::proofs::MarkReading::mark_laws))]
pub fn is_mark(line: &[u8]) -> bool
    ensures { result ≡ is_mark line.now }
{
    match line.strip_prefix(NUMBER) {
        Some([]) => true,
        Some([next, ..]) => *next == b',',
        None => false,
    }
}

// Where the first comma of a line stands, if it has one.
fn comma_of(line: &[u8]) -> Option<usize>
    ensures { result ≡ position (λ b. b == 0x2c) line.now }
{
    line.iter().position(|b| *b == b',')
}

// The first item of a line with a comma, and what follows the comma.
#[tactic(auto, using(crate::proofs::MarkReading::item_laws))]
fn split_item(line: &[u8]) -> Option<(&[u8], &[u8])>
    ensures { ItemIs line.now result }
{
    let comma = comma_of(line)?;
    Some((&line[..comma], &line[comma + 1..]))
}

// n and k of a record 911: how many pieces there are, and which of them this is.
#[derive(Clone, Copy)]
pub struct Mark {
    pub count: usize,
    pub place: usize,
}

// A record 911 of an ID, n and k, by its four items.
pub fn read_mark(line: &[u8]) -> Option<Mark>
    ensures { MarkIs line.now result }
{
    let (number, rest) = split_item(line)?;
    if number != NUMBER {
        return None;
    }
    let (id, rest) = split_item(rest)?;
    if !valid_id(id) {
        return None;
    }
    let (count, place) = split_item(rest)?;
    Some(Mark {
        count: digits::short_value(count)? as usize,
        place: digits::short_value(place)? as usize,
    })
}

// Whether eight bytes are all above 1Ah, so that none ends a text. No way out of the fold, so that the compiler compares them at once.
fn all_plain(eight: &[u8; 8]) -> bool
    ensures { result ≡ fold (λ plain b. plain && nat_lt 0x1a b) true eight.now }
{
    eight.iter().fold(true, |plain, b| plain & (0x1a < *b))
}

// Behind as many eights of such bytes as follow a position. Not by chunks_exact, with which a byte costs a sixth more.
fn skip_plain(s: &[u8], at: usize) -> usize
    requires { at ≤ length s.now }
    ensures { Skipped s.now at result }
{
    let mut i = at;
    while let Some(eight) = s[i..].first_chunk::<8>() {
        if !all_plain(eight) {
            break;
        }
        i += 8;
    }
    i
}

// Where the row that begins at a position ends: after a 0Ah, or at the end.
pub fn row_end(s: &[u8], at: usize) -> usize
    requires { at < length s.now }
    ensures { RowAt s.now at result }
{
    let i = lists::find_byte(s, skip_plain(s, at), b'\n');
    if i < s.len() { i + 1 } else { i }
}

// Whether a byte ends a text.
fn is_stop(b: u8) -> bool
    ensures { result ≡ is_stop b }
{
    matches!(b, b'\r' | b'\n' | 0x1a)
}

// Where the text from a position on ends: at the first 0Dh, 0Ah or 1Ah, or at the end.
fn text_end(s: &[u8], at: usize) -> usize
    requires { at ≤ length s.now }
    ensures { result ≡ at + length (text (drop at s.now)) }
{
    let from = skip_plain(s, at);
    (from..s.len()).find(|i| is_stop(s[*i])).unwrap_or(s.len())
}

const LINE_END: &[u8] = b"\r\n";

// Whether a row is a line with its line end.
#[tactic(auto, using(crate::proofs::RowLaws::line_laws))]
fn is_line(r: &[u8]) -> bool
    ensures { result ≡ is_line r.now }
{
    &r[text_end(r, 0)..] == LINE_END
}

// The kinds of rows; true: the direction is 1.
#[derive(Clone, Copy)]
pub enum Row {
    Head(bool),
    EndHead(bool),
    Body,
    End,
    Broken,
}

const END_MARK: &[u8] = b"\x1a";

#[tactic(auto, using(crate::proofs::RowLaws::kind_laws))]
fn row_kind(r: &[u8]) -> Row
    ensures { KindIs r.now result }
{
    match r.strip_prefix(END_MARK) {
        Some([]) => Row::End,
        Some(rest) => match heading::read_heading(rest) {
            Some(provider) => Row::EndHead(provider),
            None => Row::Broken,
        },
        None => match heading::read_heading(r) {
            Some(provider) => Row::Head(provider),
            None if is_line(r) => Row::Body,
            None => Row::Broken,
        },
    }
}

// A row: where it ends, and its kind.
#[derive(Clone, Copy)]
pub struct RowRead {
    pub end: usize,
    pub kind: Row,
}

// The row that begins at a position, of whatever kind.
fn any_row(s: &[u8], at: usize) -> RowRead
    requires { at < length s.now }
    ensures { RowIs s.now at result }
{
    let end = row_end(s, at);
    RowRead {
        end,
        kind: row_kind(&s[at..end]),
    }
}

// The same. Most rows are a text with its line end, which the text's end tells: they are looked at once. Of these only a row as long as
// a line 1 that begins with its J is compared with it.
#[tactic(auto, using(crate::proofs::ScanLaws::text_laws))]
pub fn row_at(s: &[u8], at: usize) -> RowRead
    requires { at < length s.now }
    ensures { RowIs s.now at result }
{
    let i = text_end(s, at);
    if !s[i..].starts_with(LINE_END) {
        return any_row(s, at);
    }
    let end = i + 2;
    let kind = if end - at == 13 && s[at] == b'J' {
        row_kind(&s[at..end])
    } else {
        Row::Body
    };
    RowRead { end, kind }
}
