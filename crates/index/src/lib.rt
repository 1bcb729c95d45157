// The index of a file. One pass reads every line, checks it and writes the record's seven numbers into an array of the reading call's own, 64
// records a call, and the next call reads on. When the last one has found the file good and the output long enough, each writes its
// entries there; so a refusal leaves the output as it was lent, and a short file costs no array for a long one.
// Definitions: notebook, specs/Index.antt. A further number of an entry: CONTRIBUTING.md, "What moves together".
#![tactic(auto)]

ghost use Rattle.std.specs.Prelude.{◌-◌, length, ◌≡◌};
ghost use Rattle.order.specs.State.{group_of, drug_of};
ghost use Rattle.buffers.specs.Buffers.{Room, Wrote};
ghost use Rattle.buffers.specs.Entries.{seven_numbers};
ghost use Rattle.notebook.specs.Index.{clinic_after, clinic_of, index_result};
ghost use Rattle.replies.specs.Refusals.{answer};
ghost use Rattle.replies.specs.CallContracts.{Gives};
ghost use Rattle.index.specs.Filling.{Spanned, MidwayIn, BatchOf, Onward, Exit};

use order::State;
use replies::{Answer, Refusal, Refused, Values};

// The line of the group's 51, or 0, after a record with this number at a line; before: what it was before the record. The index alone asks
// for it, so it is no part of the state that every call carries.
#[tactic(auto, using(crate::proofs::FillLaws::clinic_laws))]
fn clinic_after(line: u32, before: u32, number: u32) -> u32
    ensures { result ≡ clinic_after line before number }
{
    match number {
        5 => 0,
        51 => line,
        _ => before,
    }
}

// The clinic that a record shows: none outside groups.
#[tactic(auto, using(crate::proofs::FillLaws::clinic_inside, crate::proofs::FillLaws::clinic_outside))]
fn clinic_of(number: u32, clinic: u32) -> u32
    ensures { result ≡ clinic_of number clinic }
{
    if order::in_group(number) { clinic } else { 0 }
}

// The entry of a record whose line stands from at to end and moved the reader to the state; clinic: the line of its group's 51, or 0.
fn put_entry(
    entries: &mut [u32],
    next: usize,
    at: usize,
    end: usize,
    st: State,
    doctor: u32,
    clinic: u32,
) -> usize
    requires spanned { Spanned at end }
    requires room { Room entries.old next (seven_numbers st.place at (end - at) (group_of st) doctor (drug_of st) (clinic_of st.place clinic)) }
    ensures { Wrote entries.old entries.new next result
        (seven_numbers st.place at (end - at) (group_of st) doctor (drug_of st) (clinic_of st.place clinic)) }
{
    let offset = at as u32;
    let bytes = (end - at) as u32;
    let shown = clinic_of(st.place, clinic);
    buffers::put_all(
        entries,
        next,
        &[
            st.place,
            offset,
            bytes,
            st.group(),
            doctor,
            st.drug(),
            shown,
        ],
    )
}

// Where a call begins to read: the state, the line of the group's 51 or 0, and the position.
#[derive(Clone, Copy)]
pub struct Reader {
    pub st: State,
    pub clinic: u32,
    pub at: usize,
}

// What a call reads: 64 records, seven numbers each, and where it is then; or the last records, with the counts of the file and how many numbers
// the entries have.
#[derive(Clone, Copy)]
enum Batch {
    Full(Reader),
    Last(Values, usize),
}

// Checks the records from a position on and writes their entries, until the array is full or no record follows. Out of line, so that the calls of
// `index_on` that wait for the file's end keep no more on the stack than their entries and where they began.
#[inline(never)]
fn read_batch(from: Reader, s: &[u8], entries: &mut [u32; 448]) -> Result<Batch, Refused>
    requires { MidwayIn s.now from }
    ensures { BatchOf s.now from entries.new result }
{
    let mut stops = [0usize; 16];
    let mut reader = from;
    let mut next = 0;
    // No `for`: a record moves the reader by its own length.
    while next < 448 {
        let Some(turn) = checking::read_record(&mut stops, reader.st, s, reader.at)? else {
            return Ok(Batch::Last(checking::close(reader.st)?, next));
        };
        let after = turn.moved.state;
        let clinic = clinic_after(after.line, reader.clinic, after.place);
        next = put_entry(
            entries,
            next,
            reader.at,
            turn.end,
            after,
            turn.moved.doctor,
            clinic,
        );
        reader = Reader {
            st: after,
            clinic,
            at: turn.end + 2,
        };
    }
    Ok(Batch::Full(reader))
}

// Reads on from a position, and writes the entries from there on if the file is accepted and the output holds its index. The first of them goes
// after seven numbers for each record before it.
fn index_on(from: Reader, s: &[u8], out: &mut [u32]) -> Answer
    requires { Onward s.now from }
    ensures { Exit s.now from out.old out.new (answer result) }
{
    let mut entries = [0u32; 448];
    let next = (from.st.line - 1) as usize * 7;
    match read_batch(from, s, &mut entries)? {
        Batch::Last(counts, filled) => {
            let records = counts.a;
            if out.len() < records as usize * 7 {
                return Err(Refusal::Short.at(0));
            }
            buffers::put_all(out, next, &entries[..filled]);
            Ok(Values {
                a: records,
                b: 0,
                c: 0,
            })
        }
        Batch::Full(after) => {
            let written = index_on(after, s, out)?;
            buffers::put_all(out, next, &entries);
            Ok(written)
        }
    }
}

// The index of an accepted file, or the one refusal.
pub fn index(s: &[u8], out: &mut [u32]) -> Answer
    ensures { Gives (index_result s.now) out.old out.new (answer result) }
{
    let opening = checking::open_file(s)?;
    let start = Reader {
        st: State::new(opening.provider),
        clinic: 0,
        at: opening.from,
    };
    index_on(start, s, out)
}
