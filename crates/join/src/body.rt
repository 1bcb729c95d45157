// The rows of a piece, from after its line 1 on, with or without a record 911 as the last.
ghost use Rattle.std.specs.Prelude.{◌≤◌, length};
ghost use Rattle.join.specs.Spans.{LineAt, LastIs, LinesAre};

use crate::rows::goes_on;
use pieces::{Mark, Row};
use replies::Refusal;

// The rows of a piece: where they end, and where the piece does. The record 911, if there is one, lies between.
#[derive(Clone, Copy)]
pub(crate) struct Lines {
    pub end: usize,
    pub stop: usize,
    pub mark: Option<Mark>,
}

// The record 911 from at to e, which must be the last row.
#[tactic(auto, using(crate::proofs::BodyLaws::last_laws))]
fn last_mark(s: &[u8], at: usize, e: usize) -> Result<Mark, Refusal>
    requires { LineAt s.now at e }
    ensures { LastIs s.now at e result }
{
    match pieces::read_mark(&s[at..e - 2]) {
        Some(mark) if !goes_on(s, e) => Ok(mark),
        _ => Err(Refusal::Set),
    }
}

// The rows of the piece whose line 1 ends at a position.
#[tactic(auto, using(crate::proofs::BodyLaws::lines_laws))]
pub(crate) fn read_lines(s: &[u8], from: usize) -> Result<Lines, Refusal>
    requires { from ≤ length s.now }
    ensures { LinesAre s.now from result }
{
    let mut at = from;
    // Not a `for`: a row's end is where the next begins.
    while at < s.len() {
        let row = pieces::row_at(s, at);
        let Row::Body = row.kind else { break };
        if pieces::is_mark(&s[at..row.end - 2]) {
            let mark = last_mark(s, at, row.end)?;
            return Ok(Lines {
                end: at,
                stop: row.end,
                mark: Some(mark),
            });
        }
        at = row.end;
    }
    Ok(Lines {
        end: at,
        stop: at,
        mark: None,
    })
}
