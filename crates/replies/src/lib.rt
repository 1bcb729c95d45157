// What every call answers: its values, or one refusal with its line; and the struct that the exported calls reply with, which is plain numbers, since
// an enum cannot be exported and a result in lent memory would spoil "a refusal leaves all lent memory as lent". What a call has to give is a
// definition of its own, as specs/Results.antt asks it. A call that replies with other fields: CONTRIBUTING.md.
#![tactic(auto)]

mod refusal;
mod reply;

pub use refusal::{Refusal, Refused};
pub use reply::{Answer, Reply, Values};
