// Joining: pieces in any order to one file, which is then checked. The call's definition: division, specs/Join.antt. Inside, a piece is carried by
// positions (specs/Spans.antt): its rows are the bytes from after its line 1 to its record 911. One pass over the bytes fills the tables of the
// pieces as they lie: the k of each, and its rows. Then pieces 1 to n are looked for among the k's, one after another (document
// 02 (iv); crate search). Only where the pieces cannot be joined is the input read again for a broken line, whose number 2 goes before 19.
#![tactic(auto)]

mod body;
mod file;
mod gathering;
mod member;
mod rows;
mod set;

ghost use Rattle.std.specs.Prelude.{length};
ghost use Rattle.buffers.specs.Room.{Roomy};
ghost use Rattle.division.specs.Join.{join_result};
ghost use Rattle.replies.specs.Refusals.{answer};
ghost use Rattle.replies.specs.CallContracts.{Gives};

use file::join_into;
use replies::{Answer, Refusal, Values};

// The joined file, checked, or the one refusal; file: an array for it, so that a refusal leaves the output as it was. It is no shorter than the input,
// which no joined file exceeds, or it is as long as the longest file.
#[tactic(auto, using(crate::proofs::CallLaws::join_laws))]
fn join_by(pieces: &[u8], file: &mut [u8], out: &mut [u8]) -> Answer
    requires { Roomy (length pieces.now) file.old }
    ensures { Gives (join_result pieces.now) out.old out.new (answer result) }
{
    let end = join_into(pieces, file)?;
    let joined = &file[..end];
    checking::check(joined)?;
    if out.len() < end {
        return Err(Refusal::Short.at(0));
    }
    buffers::put_all(out, 0, joined);
    Ok(Values {
        a: end as u32,
        b: 0,
        c: 0,
    })
}

// Pieces in any order to one file. The output is written where the joined file is accepted and fits, and is as it was otherwise.
pub fn join(pieces: &[u8], out: &mut [u8]) -> Answer
    ensures { Gives (join_result pieces.now) out.old out.new (answer result) }
{
    buffers::with_room(pieces.len(), out, |file, out| join_by(pieces, file, out))
}
