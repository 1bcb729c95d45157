// The joined file in a buffer, before it is checked: one piece, or a set.
ghost use Rattle.std.specs.Prelude.{◌++◌, ◌≤◌, ◌<◌, true, length};
ghost use Rattle.lists.specs.Lists.{ok};
ghost use Rattle.characters.specs.Rows.{rows};
ghost use Rattle.notebook.specs.Canonical.{head_row};
ghost use Rattle.buffers.specs.Buffers.{Wrote};
ghost use Rattle.division.specs.Pieces.{pieces_in};
ghost use Rattle.division.specs.Join.{all_parts, join_parts, join_pieces, or_set, joined_file};
ghost use Rattle.join.specs.Spans.{sound, bytes_of, First, FirstIn, Given, GivenSet, Input, MadeIs, SetIs, JoinedIs};

use crate::body::read_lines;
use crate::gathering::gather;
use crate::member::{Member, Span};
use crate::rows::{broken_line, first_piece, next_piece};
use crate::set::Members;
use replies::{Refusal, Refused};

// Line 1 of a direction.
fn put_head(out: &mut [u8], provider: bool) -> usize
    requires { 13 ≤ length out.old }
    ensures { Wrote out.old out.new 0 result (head_row provider) }
{
    buffers::put_all(out, 0, &heading::heading_row(provider))
}

// One piece without a record 911: line 1 of its direction, and its rows.
#[tactic(auto, using(crate::proofs::JoinLaws::one_laws))]
fn join_one(s: &[u8], provider: bool, rows: Span, buf: &mut [u8]) -> Result<usize, Refusal>
    requires { Given buf.old s.now rows }
    ensures { MadeIs true (length buf.old) (ok (head_row provider ++ bytes_of s.now rows)) buf.new result }
{
    let at = put_head(buf, provider);
    if buf.len() - at < rows.to - rows.from {
        return Err(Refusal::Large);
    }
    Ok(buffers::put_all(buf, at, &s[rows.from..rows.to]))
}

// A set: line 1, and the rows of its pieces by k.
#[tactic(auto, using(crate::proofs::JoinLaws::found_laws))]
fn join_found<const N: usize>(
    s: &[u8],
    provider: bool,
    members: &Members<N>,
    buf: &mut [u8],
) -> Result<usize, Refusal>
    requires { GivenSet buf.old s.now members.now }
    ensures { SetIs (length buf.old) provider s.now members.now buf.new result }
{
    let at = put_head(buf, provider);
    gather(buf, at, s, members)
}

// The pieces as a set like its first, by tables that have room for n pieces.
#[tactic(auto, using(crate::proofs::JoinLaws::set_laws))]
fn join_listed<const N: usize>(
    s: &[u8],
    first: Member,
    members: &mut Members<N>,
    buf: &mut [u8],
) -> Result<usize, Refusal>
    requires { FirstIn buf.old s.now first members.old }
    ensures { MadeIs (sound (rows s.now)) (length buf.old) (or_set (join_parts (all_parts (pieces_in (rows s.now))))) buf.new result }
{
    members.collect(s, first)?;
    join_found(s, first.provider, members, buf)
}

// The pieces for which the shorter tables have room, so that a small set clears little.
const FEW: usize = 64;

// "n (2–999, value)"
const MOST: usize = 999;

// The pieces as a set like its first, with tables of its own.
fn join_set(s: &[u8], first: Member, buf: &mut [u8]) -> Result<usize, Refusal>
    requires line { 13 ≤ length buf.old }
    requires first { First s.now first }
    ensures { MadeIs (sound (rows s.now)) (length buf.old) (or_set (join_parts (all_parts (pieces_in (rows s.now))))) buf.new result }
{
    if first.mark.count <= 1 {
        return Err(Refusal::Set);
    }
    if first.mark.count <= FEW {
        join_listed(s, first, &mut Members::<FEW>::new(), buf)
    } else {
        join_listed(s, first, &mut Members::<MOST>::new(), buf)
    }
}

// The pieces: one without a record 911, or a set.
#[tactic(auto, using(crate::proofs::JoinLaws::pieces_laws))]
fn join_pieces(s: &[u8], buf: &mut [u8]) -> Result<usize, Refusal>
    requires { Input buf.old s.now }
    ensures { MadeIs (sound (rows s.now)) (length buf.old) (or_set (join_pieces (pieces_in (rows s.now)))) buf.new result }
{
    let opening = first_piece(s)?;
    let lines = read_lines(s, opening.end)?;
    let rows = Span {
        from: opening.end,
        to: lines.end,
    };
    if let Some(mark) = lines.mark {
        let first = Member {
            provider: opening.provider,
            mark,
            rows,
            stop: lines.stop,
        };
        return join_set(s, first, buf);
    }
    match next_piece(s, lines.stop)? {
        Some(_) => Err(Refusal::Set),
        None => join_one(s, opening.provider, rows, buf),
    }
}

// The joined file before it is checked: 1 and 2 on the input, then 19.
#[tactic(auto, using(crate::proofs::InputLaws::into_laws))]
pub(crate) fn join_into(s: &[u8], buf: &mut [u8]) -> Result<usize, Refused>
    requires { 13 ≤ length buf.old }
    ensures { JoinedIs (length buf.old) (joined_file s.now) buf.new result }
{
    if 131072 < s.len() {
        return Err(Refusal::Large.at(0));
    }
    match join_pieces(s, buf) {
        Ok(end) => Ok(end),
        Err(Refusal::Large) => Err(Refusal::Large.at(0)),
        // 2 goes before 19.
        Err(refusal) => match broken_line(s) {
            Some(line) => Err(Refusal::LineEnd.at(line)),
            None => Err(refusal.at(0)),
        },
    }
}
