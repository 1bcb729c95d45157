// A piece of a set, which has a record 911 as its last row.
ghost use Rattle.std.specs.Prelude.{◌≡◌, ◌+◌, ◌≤◌, length};
ghost use Rattle.join.specs.Spans.{ident_at, Within, MemberIs};

use crate::body::read_lines;
use crate::rows::Opening;
use pieces::Mark;
use replies::Refusal;

// Bytes of the input, from a position to a position. Not a `Range`, which is not `Copy`.
#[derive(Clone, Copy)]
pub(crate) struct Span {
    pub from: usize,
    pub to: usize,
}

// A piece of a set: its direction, n and k, where its rows lie, and where it ends. Its record 911 begins where the rows end.
#[derive(Clone, Copy)]
pub(crate) struct Member {
    pub provider: bool,
    pub mark: Mark,
    pub rows: Span,
    pub stop: usize,
}

// The ID of the record 911 that begins at a position.
fn ident(s: &[u8], mark: usize) -> &[u8]
    requires { mark + 18 ≤ length s.now }
    ensures { result.now ≡ ident_at s.now mark }
{
    &s[mark + 4..mark + 18]
}

// The piece that an opening begins, in a set like its first piece.
#[tactic(auto, using(crate::proofs::MemberLaws::member_laws))]
pub(crate) fn read_member(s: &[u8], opening: Opening, first: Member) -> Result<Member, Refusal>
    requires within { Within s.now opening.end }
    requires first { first.rows.to + 18 ≤ length s.now }
    ensures { MemberIs s.now opening first result }
{
    let lines = read_lines(s, opening.end)?;
    let Some(mark) = lines.mark else {
        return Err(Refusal::Set);
    };
    if first.provider != opening.provider
        || first.mark.count != mark.count
        || ident(s, first.rows.to) != ident(s, lines.end)
    {
        return Err(Refusal::Set);
    }
    Ok(Member {
        provider: opening.provider,
        mark,
        rows: Span {
            from: opening.end,
            to: lines.end,
        },
        stop: lines.stop,
    })
}
