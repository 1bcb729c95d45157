// Files: line 1, the records in their order, and the end. `check` is one pass: each line is found, read and put in its place before
// the next one is looked at, so the first faulty line is the one that answers.
// Definitions: notebook, specs/Notebook.antt (what a file is read to) and specs/Check.antt; the beginning in
// specs/Opening.antt, the walk in specs/Walking.antt and specs/Turns.antt.
#![tactic(auto)]

ghost use Rattle.std.specs.Prelude.{◌≡◌, drop, []};
ghost use Rattle.characters.specs.Rows.{rows};
ghost use Rattle.order.specs.State.{start};
ghost use Rattle.order.specs.Room.{Room};
ghost use Rattle.notebook.specs.Notebook.{closed as closed_of, records_from};
ghost use Rattle.checking.specs.Turns.{TurnOf};
ghost use Rattle.notebook.specs.Check.{check_result};
ghost use Rattle.replies.specs.Refusals.{answer};
ghost use Rattle.replies.specs.Results.{answer_in};
ghost use Rattle.checking.specs.Walking.{tally, Closing};
ghost use Rattle.checking.specs.Opening.{Behind, OpeningOf};

use order::{Moved, State};
use replies::{Answer, Refusal, Refused, Values};

/// How a file begins: whether its direction is 1, and where its records begin.
#[derive(Clone, Copy)]
pub struct Opening {
    pub provider: bool,
    pub from: usize,
}

/// The size of a file and its line 1.
#[tactic(auto, using(crate::proofs::OpenLaws::open_laws))]
pub fn open_file(s: &[u8]) -> Result<Opening, Refused>
    ensures { OpeningOf s.now result }
{
    if 65536 < s.len() {
        return Err(Refusal::Large.at(0));
    }
    let mut stops = [0usize; 16];
    let Ok(Some(line)) = scanning::line_at(&mut stops, s, 0) else {
        return Err(Refusal::LineEnd.at(1));
    };
    let from = line.end + 2;
    match heading::read_heading(&s[..from]) {
        Some(provider) => Ok(Opening { provider, from }),
        None => Err(Refusal::Version.at(1)),
    }
}

/// The end of a file: what is missing there, or the counts.
#[tactic(auto, using(crate::proofs::CheckLaws::close_good, crate::proofs::CheckLaws::close_missing))]
pub fn close(st: State) -> Answer
    requires { Closing st }
    ensures { answer result ≡ tally st (closed_of st) }
{
    match st.finish() {
        Ok(()) => Ok(Values {
            a: st.line - 1,
            b: st.groups,
            c: st.drugs,
        }),
        Err(refusal) => Err(refusal.at(st.line + 1)),
    }
}

/// What a record does to a state: where it moves the reader, where its line's text ends and how many commas that has.
#[derive(Clone, Copy)]
pub struct Turn {
    pub moved: Moved,
    pub end: usize,
    pub commas: usize,
}

/// Reads and places the record at a position, if one is left; stops: the places of its commas, from its beginning. One call for both, so that
/// the state is not stored and read back between them.
#[tactic(auto, using(crate::proofs::TurnLaws::turn_ends))]
pub fn read_record(
    stops: &mut [usize; 16],
    st: State,
    s: &[u8],
    at: usize,
) -> Result<Option<Turn>, Refused>
    requires { Room st }
    ensures { TurnOf st s.now at stops.new result }
{
    match lines::read_line(st.provider, stops, s, at) {
        Ok(None) => Ok(None),
        Err(refusal) => Err(refusal.at(st.line + 1)),
        Ok(Some(line)) => match st.step(line.facts) {
            Err(refusal) => Err(refusal.at(st.line + 1)),
            Ok(moved) => Ok(Some(Turn {
                moved,
                end: line.end,
                commas: line.commas,
            })),
        },
    }
}

// The records of a file from after line 1 on.
#[tactic(auto, using(crate::proofs::CheckLaws::reading_laws))]
fn check_records(provider: bool, s: &[u8], from: usize) -> Answer
    requires { Behind s.now from }
    ensures { answer result ≡ tally (start provider) (records_from (start provider) (rows (drop from s.now))) }
{
    let mut stops = [0usize; 16];
    let mut st = State::new(provider);
    let mut at = from;
    while let Some(turn) = read_record(&mut stops, st, s, at)? {
        st = turn.moved.state;
        at = turn.end + 2;
    }
    close(st)
}

/// The counts of an accepted file, or the one refusal with its line.
#[tactic(auto, using(crate::proofs::CheckLaws::check_laws))]
pub fn check(s: &[u8]) -> Answer
    ensures { answer result ≡ answer_in (check_result s.now) [] }
{
    let opening = open_file(s)?;
    check_records(opening.provider, s, opening.from)
}
