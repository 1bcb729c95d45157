// The answer of a call, and the struct that it replies with.
use crate::refusal::Refused;

/// The values of a call's result. What each one counts: `gateway`.
#[derive(Clone, Copy, Debug, PartialEq, Eq)]
pub struct Values {
    pub a: u32,
    pub b: u32,
    pub c: u32,
}

/// The values of a call's result, or its one refusal.
pub type Answer = Result<Values, Refused>;

/// refusal: document 01's number, 0 for accepted. line: the refusal's line. a, b, c: the values of the call's result.
#[repr(C)]
#[derive(Clone, Copy, Debug, PartialEq, Eq)]
pub struct Reply {
    pub refusal: u64,
    pub line: u64,
    pub a: u64,
    pub b: u64,
    pub c: u64,
}

impl From<Answer> for Reply {
    ghost use Rattle.std.specs.Prelude.{◌≡◌};
    ghost use Rattle.replies.specs.Replies.{reply_of};
    ghost use Rattle.replies.specs.Refusals.{answer};

    ghost from_gives = { λ a r. r ≡ reply_of (answer a) };

    fn from(answer: Answer) -> Reply {
        match answer {
            Ok(values) => Reply {
                refusal: 0,
                line: 0,
                a: u64::from(values.a),
                b: u64::from(values.b),
                c: u64::from(values.c),
            },
            Err(refused) => Reply {
                refusal: refused.refusal.number(),
                line: u64::from(refused.line),
                a: 0,
                b: 0,
                c: 0,
            },
        }
    }
}
