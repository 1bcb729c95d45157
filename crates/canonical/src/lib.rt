// The canonical file: one pass that checks and writes, into an array of the call's own; then a copy, where the output can hold it.
// All bytes but a few are kept, so the pass copies runs of them: an item that has another spelling ends a run, and so does the file's end.
// Definitions: notebook, specs/Canonical.antt; the same as the code writes it: specs/Writing.antt.
#![tactic(auto)]

ghost use Rattle.std.specs.Prelude.{◌≡◌, ◌∷◌, ◌+◌, ◌≤◌, length, drop, map};
ghost use Rattle.std.proofs.lemmas.List.Edits.{sets};
ghost use Rattle.lists.specs.Searching.{part};
ghost use Rattle.characters.specs.Rows.{rows};
ghost use Rattle.records.specs.Records.{record_of, write};
ghost use Rattle.order.specs.State.{start};
ghost use Rattle.items.specs.Kinds.{kind_of};
ghost use Rattle.lines.specs.Items.{text_of};
ghost use Rattle.buffers.specs.Buffers.{Room, Wrote};
ghost use Rattle.notebook.specs.Notebook.{records_from};
ghost use Rattle.notebook.specs.Canonical.{canonical_file, canonical_result};
ghost use Rattle.checking.specs.Opening.{Behind};
ghost use Rattle.checking.specs.Walking.{Closing};
ghost use Rattle.replies.specs.Refusals.{answer};
ghost use Rattle.replies.specs.CallContracts.{Gives};
ghost use Rattle.canonical.specs.Writing.{postal_bytes, number_bytes, day_bytes, item_bytes, Spellable, OwnUnless, Stays, Lies, Ready, Passed};
ghost use Rattle.canonical.specs.Writing.{spots_of, spot_of, Sound, ItemOf, begins, ends, bytes_of, poured, Poured, closing, Holds, MadeOf};

use items::Kind;
use lines::{Items, Span};
use order::State;
use replies::{Answer, Refusal, Values};

// ---- one item

// A postal code without its hyphen.
fn put_postal(out: &mut [u8], at: usize, s: &[u8]) -> usize
    requires { Room out.old at (postal_bytes s.now) }
    ensures { Wrote out.old out.new at result (postal_bytes s.now) }
{
    if s.len() == 8 {
        let next = buffers::put_all(out, at, &s[..3]);
        return buffers::put_all(out, next, &s[4..]);
    }
    buffers::put_all(out, at, s)
}

// A number of one to three digits without leading zeros; nothing where there is none.
fn put_value(out: &mut [u8], at: usize, s: &[u8]) -> usize
    requires { Room out.old at (number_bytes s.now) }
    ensures { Wrote out.old out.new at result (number_bytes s.now) }
{
    match digits::short_value(s) {
        Some(value) => buffers::put_number(out, at, value),
        None => at,
    }
}

// A date in the era form; nothing where there is none.
fn put_date(out: &mut [u8], at: usize, s: &[u8]) -> usize
    requires { Room out.old at (day_bytes s.now) }
    ensures { Wrote out.old out.new at result (day_bytes s.now) }
{
    match calendar::Day::read(s) {
        Some(day) => buffers::put_all(out, at, &day.era_form()),
        None => at,
    }
}

// An item in its one spelling.
fn put_item(out: &mut [u8], at: usize, kind: Kind, s: &[u8]) -> usize
    requires spellable { Spellable (kind_of kind) s.now }
    requires room { Room out.old at (item_bytes (kind_of kind) s.now) }
    ensures { Wrote out.old out.new at result (item_bytes (kind_of kind) s.now) }
{
    match kind {
        Kind::PostalCode => put_postal(out, at, s),
        Kind::Number => put_value(out, at, s),
        Kind::Date => put_date(out, at, s),
        _ => buffers::put_all(out, at, s),
    }
}

// Whether an item without a fault may have another spelling than its own bytes: a postal code with its hyphen, a number with a leading zero, or a date
// that is not what is written for its day.
#[tactic(auto, using(crate::proofs::ItemLaws::own_laws))]
fn respelled(kind: Kind, s: &[u8]) -> bool
    requires { Spellable (kind_of kind) s.now }
    ensures { OwnUnless result (kind_of kind) s.now }
{
    match kind {
        Kind::PostalCode => s.len() == 8,
        Kind::Number => matches!(s, [b'0', ..]),
        Kind::Date => s.len() == 8 || s.len() == 7 && !calendar::Day::is_written_form(s),
        _ => false,
    }
}

// Whether an item that begins at a position is surely its own spelling: a number that does not begin with a zero. Where it is empty, a comma or the
// line's end stands there, which is no zero either, so that most numbers are passed before their end is looked at.
fn stays(kind: Kind, s: &[u8], at: usize) -> bool
    ensures { Stays result (kind_of kind) s.now at }
{
    kind == Kind::Number && s.get(at) != Some(&b'0')
}

// ---- one line

// The items of a record that may have another spelling, each by its number in the line and its kind. They are listed apart from the row, since a walk over
// each record's row takes a twentieth of the call's time.
#[tactic(auto, unfolding(crate::specs::Writing::spots_of, crate::specs::Writing::spots_from, table::specs::Rows::row_by, records::specs::Table::table))]
fn spots(number: u32) -> &'static [(usize, Kind)]
    ensures { map spot_of result.now ≡ spots_of number }
{
    match number {
        1 => &[(3, Kind::Date), (4, Kind::PostalCode)],
        3 => &[(2, Kind::Date), (3, Kind::Date)],
        4 | 601 => &[(2, Kind::Date)],
        5 => &[(1, Kind::Date)],
        11 => &[(5, Kind::PostalCode)],
        201 | 281 | 291 | 311 | 391 => &[(1, Kind::Number)],
        301 => &[(1, Kind::Number), (3, Kind::Number)],
        701 => &[(4, Kind::Date), (5, Kind::Date)],
        _ => &[],
    }
}

// ---- runs

// What is written of a file: all bytes before `from`, in their one spelling, before `at` of the output. The bytes from `from` on wait: they
// are copied where a run ends. The output is not a part of it: each contract would have to say that it is the same one still.
#[derive(Clone, Copy)]
pub struct Run {
    pub from: usize,
    pub at: usize,
}

impl Run {
    // An item of a file: its spelling after the run before it; or nothing, where its bytes are its spelling.
    fn respell(self, kind: Kind, s: &[u8], item: Span, out: &mut [u8]) -> Run
        requires lies { Lies s.now item.from item.to }
        requires spellable { Spellable (kind_of kind) (part s.now item.from item.to) }
        requires ready { Ready out.old self item.from (item_bytes (kind_of kind) (part s.now item.from item.to)) }
        ensures { Passed s.now out.old out.new self result item.from item.to (item_bytes (kind_of kind) (part s.now item.from item.to)) }
    {
        let Span { from, to } = item;
        let bytes = &s[from..to];
        if !respelled(kind, bytes) {
            return self;
        }
        let next = buffers::put_all(out, self.at, &s[self.from..from]);
        let at = put_item(out, next, kind, bytes);
        Run { from: to, at }
    }

    // Item number j of a line, after the items before it.
    fn pass_item(self, kind: Kind, items: &Items, j: usize, out: &mut [u8]) -> Run
        requires item_of { ItemOf j items.now.commas }
        requires spellable { Spellable (kind_of kind) (bytes_of items.now j) }
        requires ready { Ready out.old self (begins items.now j) (0x2c ∷ item_bytes (kind_of kind) (bytes_of items.now j)) }
        ensures { Passed items.now.file.now out.old out.new self result (begins items.now j) (ends items.now j) (0x2c ∷ item_bytes (kind_of kind) (bytes_of items.now j)) }
    {
        let item = items.range(j);
        if stays(kind, items.file, item.from) {
            return self;
        }
        self.respell(kind, items.file, item, out)
    }

    // The record of a line; number: the record's.
    fn put_record(self, number: u32, items: &Items, out: &mut [u8]) -> Run
        requires sound { Sound number (text_of items.now) }
        requires ready { Ready out.old self items.now.at (write (record_of (text_of items.now))) }
        ensures { Passed items.now.file.now out.old out.new self result items.now.at items.now.end (write (record_of (text_of items.now))) }
    {
        let mut run = self;
        for (j, kind) in spots(number) {
            run = run.pass_item(*kind, items, *j, out);
        }
        run
    }
}

// ---- the file

// The end of a file: what is missing there, or how many bytes are written.
#[tactic(auto, using(crate::proofs::FileLaws::close_laws))]
fn close(st: State, at: usize) -> Answer
    requires closing { Closing st }
    requires at_bound { at ≤ 65536 }
    ensures { answer result ≡ closing st at }
{
    st.finish().map_err(|refusal| refusal.at(st.line + 1))?;
    Ok(Values {
        a: at as u32,
        b: 0,
        c: 0,
    })
}

// Line 1, which is kept, and the records from after it on.
fn write_records(provider: bool, s: &[u8], from: usize, out: &mut [u8]) -> Answer
    requires behind { Behind s.now from }
    requires s_in_bounds { length s.now ≤ length out.old }
    ensures { Poured (length out.old) (poured (sets out.old 0 (part s.now 0 from)) from (records_from (start provider) (rows (drop from s.now)))) out.new (answer result) }
{
    let mut stops = [0usize; 16];
    let mut st = State::new(provider);
    let mut at = from;
    let mut run = Run { from: 0, at: 0 };
    while let Some(turn) = checking::read_record(&mut stops, st, s, at)? {
        let items = Items {
            file: s,
            at,
            end: turn.end,
            stops: &stops,
            commas: turn.commas,
        };
        st = turn.moved.state;
        run = run.put_record(st.place, &items, out);
        at = turn.end + 2;
    }
    let end = buffers::put_all(out, run.at, &s[run.from..at]);
    close(st, end)
}

// The canonical file of an accepted file at the front of an array that holds the file; or the one refusal.
#[tactic(auto, using(crate::proofs::WholeLaws::into_laws))]
pub fn canonical_into(s: &[u8], out: &mut [u8]) -> Answer
    requires { Holds s.now out.old }
    ensures { MadeOf (length out.old) (canonical_file s.now) out.new (answer result) }
{
    let opening = checking::open_file(s)?;
    write_records(opening.provider, s, opening.from, out)
}

// The canonical file of an accepted file, or the one refusal; file: an array for it, so that a refusal leaves the output as it was.
fn canonical_by(s: &[u8], file: &mut [u8], out: &mut [u8]) -> Answer
    requires { Holds s.now file.old }
    ensures { Gives (canonical_result s.now) out.old out.new (answer result) }
{
    let made = canonical_into(s, file)?;
    let bytes = &file[..made.a as usize];
    if out.len() < bytes.len() {
        return Err(Refusal::Short.at(0));
    }
    buffers::put_all(out, 0, bytes);
    Ok(Values {
        a: made.a,
        b: 0,
        c: 0,
    })
}

// The same with an array of its own.
pub fn canonical_file(s: &[u8], out: &mut [u8]) -> Answer
    ensures { Gives (canonical_result s.now) out.old out.new (answer result) }
{
    buffers::with_room(s.len(), out, |room, out| canonical_by(s, room, out))
}
