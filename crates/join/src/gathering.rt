// The rows of a set's pieces by k, in a buffer.
ghost use Rattle.std.specs.Prelude.{◌+◌, ◌≤◌, length};
ghost use Rattle.join.specs.Spans.{PutIs, FillIs, FillRoom};

use crate::set::Members;
use replies::Refusal;

// Bytes from an index on, where the buffer can hold them; the index after them in any case. 13 and 999 times 131,072 are less than the bound, so that the
// sum fits.
fn put_if_room(out: &mut [u8], at: usize, w: &[u8]) -> usize
    requires { at + length w.now ≤ 200000000 }
    ensures { PutIs out.old out.new at result w.now }
{
    let end = at + w.len();
    if out.len() < end {
        return end;
    }
    buffers::put_all(out, at, w)
}

// The rows of pieces 1 to n, from an index on. 19 for a k that is missing comes before 1 for a file that is too long, so the pieces after one that does not
// fit are looked for too.
#[tactic(auto, using(crate::proofs::GatheringLaws::gathering_laws))]
pub(crate) fn gather<const N: usize>(
    out: &mut [u8],
    at: usize,
    s: &[u8],
    members: &Members<N>,
) -> Result<usize, Refusal>
    requires { FillRoom out.old at s.now members.now }
    ensures { FillIs out.old out.new at s.now members.now result }
{
    let mut end = at;
    for k in 1..=members.count {
        let Some(rows) = members.find_rows(k) else {
            return Err(Refusal::Set);
        };
        end = put_if_room(out, end, &s[rows.from..rows.to]);
    }
    if out.len() < end {
        return Err(Refusal::Large);
    }
    Ok(end)
}
