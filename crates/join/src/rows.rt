// The rows of the input: the rule of line ends, and line 1 of each piece.
ghost use Rattle.std.specs.Prelude.{◌≡◌, ◌≤◌, length, drop};
ghost use Rattle.characters.specs.Rows.{rows};
ghost use Rattle.division.specs.Pieces.{broken_line};
ghost use Rattle.join.specs.Spans.{LineIs, NextIs, FirstIs, goes_on};

use pieces::Row;
use replies::Refusal;

// The line of the first row that breaks the rule of line ends. A 1Ah is in place after a piece only.
#[tactic(auto, using(crate::proofs::WalkLaws::walk_laws))]
pub(crate) fn broken_line(s: &[u8]) -> Option<u32>
    requires { length s.now ≤ 131072 }
    ensures { LineIs (broken_line (rows s.now)) result }
{
    if s.is_empty() {
        return Some(1);
    }
    let mut begun = false;
    let mut line: u32 = 1;
    let mut at = 0;
    // Not a `for`: a row's end is where the next begins.
    while at < s.len() {
        let row = pieces::row_at(s, at);
        match row.kind {
            Row::Body => {}
            Row::Head(_) => begun = true,
            Row::EndHead(_) | Row::End => {
                if !begun {
                    return Some(line);
                }
            }
            Row::Broken => return Some(line),
        }
        at = row.end;
        line += 1;
    }
    None
}

// Line 1 of a piece: where it ends, and whether its direction is 1.
#[derive(Clone, Copy)]
pub(crate) struct Opening {
    pub end: usize,
    pub provider: bool,
}

// The first piece, whose line 1 has no 1Ah before it.
#[tactic(auto, using(crate::proofs::WalkLaws::first_head))]
pub(crate) fn first_piece(s: &[u8]) -> Result<Opening, Refusal>
    ensures { FirstIs s.now result }
{
    if s.is_empty() {
        return Err(Refusal::Set);
    }
    let row = pieces::row_at(s, 0);
    match row.kind {
        Row::Head(provider) => Ok(Opening {
            end: row.end,
            provider,
        }),
        Row::EndHead(_) | Row::Body | Row::End | Row::Broken => Err(Refusal::Set),
    }
}

// The piece after another, which ends at a position, if there is one.
#[tactic(auto, using(crate::proofs::WalkLaws::next_laws))]
pub(crate) fn next_piece(s: &[u8], at: usize) -> Result<Option<Opening>, Refusal>
    requires { at ≤ length s.now }
    ensures { NextIs s.now at result }
{
    if s.len() <= at {
        return Ok(None);
    }
    let row = pieces::row_at(s, at);
    match row.kind {
        Row::Head(provider) | Row::EndHead(provider) => Ok(Some(Opening {
            end: row.end,
            provider,
        })),
        Row::End => Ok(None),
        Row::Body | Row::Broken => Err(Refusal::Set),
    }
}

// Whether a row of the same piece begins at a position.
pub(crate) fn goes_on(s: &[u8], at: usize) -> bool
    requires { at ≤ length s.now }
    ensures { result ≡ goes_on (rows (drop at s.now)) }
{
    at < s.len() && matches!(pieces::row_at(s, at).kind, Row::Body)
}
