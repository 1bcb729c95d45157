// Cutting: the canonical file of a notebook into pieces for a capacity. Definitions: division, specs/Cut.antt; specs/Loops.antt has the forms that
// the loops follow. The records of a piece are one run of the file's bytes, and the longest run that fits ends after the last 0Ah within
// the capacity: `run_end` looks for it from the back, so that a piece costs a row's bytes and not its own. The width of the count is found
// first, with the count and the total length, so that nothing is written where the answer is a refusal; then the pieces are written.
// A change of the record 911 moves together: `over` (packing), `mark_row` (division), `overhead` and `put_mark`.
#![tactic(auto)]

ghost use Rattle.std.specs.Prelude.{◌≡◌, ◌≤◌, length};
ghost use Rattle.buffers.specs.Buffers.{Room, Wrote};
ghost use Rattle.digits.specs.Digits.{digit_count};
ghost use Rattle.packing.specs.Widths.{serves};
ghost use Rattle.canonical.specs.Writing.{Holds};
ghost use Rattle.division.specs.Marks.{mark_row};
ghost use Rattle.division.specs.Cut.{cut_result};
ghost use Rattle.replies.specs.Refusals.{answer};
ghost use Rattle.replies.specs.CallContracts.{Gives};
ghost use Rattle.cut.specs.Loops.{OverOf, LastOf, RunAt, Small, chosen, Planned, MarkRoom, piece_as, PieceRoom, poured, Given, cut_of_bytes};

use replies::{Answer, Refusal, Values};
use std::ops::Range;

// The digits of a number below 1,000; 4 for any above.
#[tactic(auto, unfolding(digits::specs::Digits::digit_count))]
fn digits_of(n: u32) -> usize
    ensures { result ≡ digit_count n }
{
    match n {
        0..=9 => 1,
        10..=99 => 2,
        100..=999 => 3,
        _ => 4,
    }
}

// What piece k holds besides its records, where the count has w digits.
#[tactic(auto, using(digits::proofs::Numbers::count_most), unfolding(packing::specs::Widths::over))]
fn overhead(w: usize, k: u32) -> usize
    requires { w ≤ 3 }
    ensures { OverOf w k result }
{
    35 + w + digits_of(k)
}

// A count of w digits, and of no single piece.
#[tactic(auto, unfolding(packing::specs::Widths::serves))]
fn serves_width(w: usize, n: u32) -> bool
    ensures { result ≡ serves w n }
{
    (digits_of(n) == w) & (2 <= n)
}

// Where the last 0Ah stands.
fn last_feed(s: &[u8]) -> Option<usize>
    ensures { LastOf s.now result }
{
    s.iter().rposition(|b| *b == b'\n')
}

// Where the longest run of rows from i on ends that fits a capacity beside u bytes: the end if all fit, else after the last 0Ah that
// does; i where no row fits.
fn run_end(s: &[u8], i: usize, u: usize, c: usize) -> usize
    requires { i ≤ length s.now }
    ensures { RunAt s.now i u c result }
{
    if c < u {
        return i;
    }
    let room = c - u;
    if s.len() - i <= room {
        return s.len();
    }
    match last_feed(&s[i..i + room]) {
        Some(last) => i + last + 1,
        None => i,
    }
}

// The width of the count, the count, and the bytes that the pieces hold besides their records.
#[derive(Clone, Copy)]
pub struct Plan {
    pub width: usize,
    pub count: u32,
    pub bytes: usize,
}

// The first width that serves.
#[tactic(auto, using(crate::proofs::CountLaws::count_laws))]
fn first_width(s: &[u8], c: usize) -> Option<Plan>
    requires { Small s.now c }
    ensures { result ≡ chosen s.now c }
{
    let mut w: usize = 1;
    let mut t: usize = 0;
    // Labelled, since a width is left for the next one, and the last with its count, from inside the packing.
    let count = 'widths: loop {
        if 3 < w {
            return None;
        }
        let mut k: u32 = 1;
        let mut u = overhead(w, k);
        let mut i: usize = 13;
        t = u;
        // No `for`: the end of a piece is where the next begins.
        loop {
            let e = run_end(s, i, u, c);
            if s.len() <= e {
                if serves_width(w, k) {
                    break 'widths k;
                }
                w += 1;
                continue 'widths;
            }
            if e <= i {
                w += 1;
                continue 'widths;
            }
            i = e;
            k += 1;
            if w < digits_of(k) {
                w += 1;
                continue 'widths;
            }
            u = overhead(w, k);
            t += u;
        }
    };
    Some(Plan {
        width: w,
        count,
        bytes: t,
    })
}

// What is written: a canonical file in pieces of at most the capacity, by a plan, with an ID.
#[derive(Clone, Copy)]
pub struct Cutting<'a> {
    pub file: &'a [u8],
    pub capacity: usize,
    pub plan: Plan,
    pub id: &'a [u8],
    pub ghost planned: { Planned file.now capacity plan.width plan.count },
}

impl Cutting<'_> {
    // The row 911,ID,n,k.
    fn put_mark(&self, out: &mut [u8], at: usize, k: u32) -> usize
        requires { MarkRoom out.old at self.now.id.now self.now.plan.count k }
        ensures { Wrote out.old out.new at result (mark_row self.now.id.now self.now.plan.count k) }
    {
        let at = buffers::put_all(out, at, b"911,");
        let at = buffers::put_all(out, at, self.id);
        let at = buffers::put_byte(out, at, b',');
        let at = buffers::put_number(out, at, self.plan.count);
        let at = buffers::put_byte(out, at, b',');
        let at = buffers::put_number(out, at, k);
        buffers::put_all(out, at, b"\r\n")
    }

    // Piece k: line 1, its rows and the record 911.
    fn put_piece(&self, out: &mut [u8], at: usize, rows: Range<usize>, k: u32) -> usize
        requires { PieceRoom out.old at self.now.file.now rows.start rows.end self.now.id.now self.now.plan.count k }
        ensures { Wrote out.old out.new at result (piece_as self.now.file.now self.now.id.now self.now.plan.count k rows.start rows.end) }
    {
        let at = buffers::put_all(out, at, &self.file[..13]);
        let at = buffers::put_all(out, at, &self.file[rows]);
        self.put_mark(out, at, k)
    }

    // The pieces, one after another.
    fn pour_pieces(&self, out: &mut [u8]) -> usize
        requires { Room out.old 0 (poured self.now.file.now self.now.capacity self.now.plan.width self.now.id.now self.now.plan.count 1 13) }
        ensures { Wrote out.old out.new 0 result (poured self.now.file.now self.now.capacity self.now.plan.width self.now.id.now self.now.plan.count 1 13) }
    {
        let mut o: usize = 0;
        let mut k: u32 = 1;
        let mut i: usize = 13;
        // No `for`, as above.
        loop {
            let u = overhead(self.plan.width, k);
            let e = run_end(self.file, i, u, self.capacity);
            o = self.put_piece(out, o, i..e, k);
            if self.file.len() <= e {
                return o;
            }
            k += 1;
            i = e;
        }
    }
}

// Cuts the bytes of a canonical file, for a valid ID. Where the file does not fit, the capacity is below 65,536.
fn cut_bytes(s: &[u8], capacity: u64, id: &[u8], out: &mut [u8]) -> Answer
    requires { Given s.now id.now }
    ensures { Gives (cut_of_bytes s.now capacity id.now) out.old out.new (answer result) }
{
    let c = capacity as usize;
    let len = s.len();
    if len <= c {
        if out.len() < len {
            return Err(Refusal::Short.at(0));
        }
        buffers::put_all(out, 0, s);
        return Ok(Values {
            a: 1,
            b: len as u32,
            c: 0,
        });
    }
    let Some(plan) = first_width(s, c) else {
        return Err(Refusal::NoCutting.at(0));
    };
    let total = plan.bytes + (len - 13);
    if out.len() < total {
        return Err(Refusal::Short.at(0));
    }
    let cutting = Cutting {
        file: s,
        capacity: c,
        plan,
        id,
    };
    cutting.pour_pieces(out);
    Ok(Values {
        a: plan.count,
        b: total as u32,
        c: 0,
    })
}

// Cuts a file into pieces of at most the capacity, one after another from the output's start on; or the one refusal. used: the run of used IDs.
// bytes: an array for the canonical file.
fn cut_by(
    file: &[u8],
    bytes: &mut [u8],
    capacity: u64,
    id: &[u8],
    used: &[u8],
    out: &mut [u8],
) -> Answer
    requires { Holds file.now bytes.old }
    ensures { Gives (cut_result file.now capacity id.now used.now) out.old out.new (answer result) }
{
    let made = canonical::canonical_into(file, bytes)?;
    if !pieces::valid_id(id) {
        return Err(Refusal::Id.at(0));
    }
    if !used::is_unused(id, used) {
        return Err(Refusal::Used.at(0));
    }
    cut_bytes(&bytes[..made.a as usize], capacity, id, out)
}

// The same with an array of its own.
pub fn cut(file: &[u8], capacity: u64, id: &[u8], used: &[u8], out: &mut [u8]) -> Answer
    ensures { Gives (cut_result file.now capacity id.now used.now) out.old out.new (answer result) }
{
    buffers::with_room(
        file.len(),
        out,
        |room, out| cut_by(file, room, capacity, id, used, out),
    )
}
