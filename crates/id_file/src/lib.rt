// A file of used IDs, brought to the run that the call takes. With a 0Ah in it, it is lines of 14 digits, each ended by 0Ah or 0Dh 0Ah, the last
// perhaps by nothing; without one it is a run as it stands. Anything else is bad, so that no ID is passed over.
#![tactic(auto)]

ghost use Rattle.std.specs.Prelude.{◌≤◌, length, IfSome};
ghost use Rattle.id_file.specs.Positions.{Inside, Onward, Passed, AtFront};

// The line that is not 14 digits, or the ID of a run; the first is 1.
#[derive(Clone, Copy, Debug, PartialEq, Eq)]
pub struct BadId {
    pub number: usize,
}

// Whether 14 digits stand at a position.
fn id_at(text: &[u8], at: usize) -> bool
    requires { at ≤ length text.now }
    ensures { Inside text.now at result }
{
    text[at..]
        .first_chunk::<14>()
        .is_some_and(|id| digits::all_digits(id))
}

// After the line end at a position.
fn after_line_end(text: &[u8], at: usize) -> Option<usize>
    requires { at ≤ length text.now }
    ensures { IfSome result (Onward text.now at) }
{
    match &text[at..] {
        [b'\n', ..] => Some(at + 1),
        [b'\r', b'\n', ..] => Some(at + 2),
        _ => None,
    }
}

// After the ID at a position and, in lines, its line end. Only the last line may lack its end.
fn after_id(text: &[u8], at: usize, lined: bool) -> Option<usize>
    requires { at ≤ length text.now }
    ensures { IfSome result (Passed text.now at) }
{
    if !id_at(text, at) {
        return None;
    }
    let end = at + 14;
    if !lined || end == text.len() {
        return Some(end);
    }
    after_line_end(text, end)
}

// Brings a text to its run, from the text's front on, and answers where the run ends. The IDs before the bad one are as many as have been moved.
pub fn run_of(text: &mut [u8]) -> Result<usize, BadId>
    ensures { AtFront result text.new }
{
    let lined = text.contains(&b'\n');
    let mut from: usize = 0;
    let mut to: usize = 0;
    // No `for`: an ID and its line end decide where the next begins.
    while from < text.len() {
        let next = after_id(text, from, lined).ok_or(BadId {
            number: to / 14 + 1,
        })?;
        text.copy_within(from..from + 14, to);
        to += 14;
        from = next;
    }
    Ok(to)
}
