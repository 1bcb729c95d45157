// The order of records in a notebook file (JAHIS 15-106 3.2.7 and 3.2.8): refusals 12 to 16 of a record, 14 at the end.
// A record is read elsewhere; here it is six facts, so that files that spell the same values take the same steps.
// The rules are in crate rules: Places (which record follows which), Rules (what is refused). Here are Questions (what is compared) and
// State (what a record changes). A new record number moves together: a row in `pattern` there, an arm in `refusal` with its
// law in proofs/ByNumber.antt, an arm in `Had::after` where it changes what the group has had, and the part of the
// pattern that it belongs to (`in_front`, `in_rp`, `in_rest`).
#![tactic(auto)]

ghost use Rattle.std.specs.Prelude.{◌≡◌, false, not, cond, ◌&&◌, [], ◌∷◌, eqb};
ghost use Rattle.lists.specs.Lists.{member};
ghost use Rattle.replies.specs.Refusals.{fault_in};
ghost use Rattle.rules.specs.Places.{in_head, in_front, in_drugs, in_rp, in_rest, in_group};
ghost use Rattle.order.specs.Questions.{before_of};
ghost use Rattle.rules.specs.Rules.{lacking};
ghost use Rattle.order.specs.State.{nothing_yet, had_after, start, advance, rp_of, doctor_of, refusal_of, step_of, finish_of, group_of, drug_of};
ghost use Rattle.order.specs.Steps.{step_in};
ghost use Rattle.order.specs.Room.{Room};

use replies::Refusal;
use replies::Refusal::{DateOrder, Missing, Pair, Place, Rp};

// All that the rules look at in a record; an empty item is 0, or false. `rp` is the first item of 201 to 391, `day` a
// 5's day as YYYYMMDD, `schedule` an 11's fee schedule (third item), `form` a 301's form (fifth item), `named` whether
// a 301 has a usage name.
#[derive(Clone, Copy)]
pub struct Facts {
    pub number: u32,
    pub rp: u32,
    pub day: u32,
    pub schedule: u32,
    pub form: u32,
    pub named: bool,
}

// What the open group has had; the Booleans stand together, so that they are copied as one word. `rp` is the open RP's
// value, which is also the count of RPs; `had301` speaks of that RP. `doctor` and `drug` are the lines of the last 55 and
// 201, 0 where there is none.
#[derive(Clone, Copy, Default)]
pub struct Had {
    pub had11: bool,
    pub had51: bool,
    pub had411: bool,
    pub had301: bool,
    pub schedule: u32,
    pub rp: u32,
    pub doctor: u32,
    pub drug: u32,
}

// Where the reader is. `provider`: the file is direction 1, from provider to patient. `place` is the number of the last
// record and `line` its line; `groups` and `drugs` count the 5s and 201s so far; `day` is the last group's.
#[derive(Clone, Copy)]
pub struct State {
    pub provider: bool,
    pub place: u32,
    pub line: u32,
    pub groups: u32,
    pub drugs: u32,
    pub day: u32,
    pub had: Had,
}

// What a record moves the reader to: the next state, with the RP and the doctor's line of the record, 0 where it has none.
#[derive(Clone, Copy)]
pub struct Moved {
    pub state: State,
    pub rp: u32,
    pub doctor: u32,
}

// What the rules say of a record.
type Verdict = Result<(), Refusal>;

// One of two verdicts as a value, so that a rule needs no branch.
fn pick(b: bool, x: Verdict, y: Verdict) -> Verdict
    ensures { fault_in result ≡ cond b (fault_in x) (fault_in y) }
{
    if b { x } else { y }
}

// Parts of the pattern, by place; specs/Places has the sentence of each.
fn in_head(p: u32) -> bool
    ensures { result ≡ in_head p }
{
    matches!(p, 0 | 1 | 2 | 3 | 4)
}

fn in_front(p: u32) -> bool
    ensures { result ≡ in_front p }
{
    matches!(p, 5 | 11 | 15 | 51)
}

fn in_drugs(p: u32) -> bool
    ensures { result ≡ in_drugs p }
{
    matches!(p, 201 | 281 | 291)
}

fn in_rp(p: u32) -> bool
    ensures { result ≡ in_rp p }
{
    matches!(p, 201 | 281 | 291 | 301 | 311 | 391)
}

fn in_rest(p: u32) -> bool
    ensures { result ≡ in_rest p }
{
    matches!(p, 401 | 411 | 501 | 601)
}

// Whether a record of this number stands in a group.
pub fn in_group(p: u32) -> bool
    ensures { result ≡ in_group p }
{
    in_front(p) | (p == 55) | in_rp(p) | in_rest(p)
}

// A record of the open RP but a 201; placed: it may stand here. "The first items of one RP have one value".
fn kept_rp(placed: bool, same: bool) -> Verdict
    ensures { fault_in result ≡ cond placed (cond (not same) 15 0) 13 }
{
    if same {
        if placed {
            return Ok(());
        }
        return Err(Place);
    }
    pick(placed, Err(Rp), Err(Place))
}

impl Had {
    // A group that has had its 5 only.
    #[tactic(auto, unfolding(crate::specs::State::nothing_yet))]
    pub fn none() -> Self
        ensures { result ≡ nothing_yet }
    {
        Had::default()
    }

    // A 5 begins anew: neither doctor nor fee schedule reaches into the next group.
    fn after(self, r: Facts, line: u32) -> Self
        ensures { result ≡ had_after self r line }
    {
        let n = r.number;
        match n {
            5 => Had::none(),
            11 => Had {
                had11: true,
                schedule: r.schedule,
                ..self
            },
            51 => Had {
                had51: true,
                ..self
            },
            55 => Had {
                doctor: line,
                ..self
            },
            201 => Had {
                rp: r.rp,
                had301: false,
                drug: line,
                ..self
            },
            301 => Had {
                had301: true,
                ..self
            },
            411 => Had {
                had411: true,
                ..self
            },
            _ => self,
        }
    }
}

impl State {
    // Line 1 is read, no record yet.
    pub fn new(provider: bool) -> Self
        ensures { result ≡ start provider }
    {
        State {
            provider,
            place: 0,
            line: 1,
            groups: 0,
            drugs: 0,
            day: 0,
            had: Had::none(),
        }
    }

    // The open group can't close in direction 1: "each has 11", "a group with an RP and an 11 with 4 has 51", "a group without RP has a
    // 411".
    fn lacking(self) -> bool
        ensures { result ≡ lacking (before_of self) }
    {
        if !self.had.had11 {
            return true;
        }
        if self.had.rp == 0 {
            return !self.had.had411;
        }
        (self.had.schedule == 4) & !self.had.had51
    }

    // Direction 1: "after an 11 with 1 or 3, no 51 or 55".
    fn barred(self) -> bool
        ensures { result ≡ (self.provider && member (1 ∷ 3 ∷ []) self.had.schedule) }
    {
        self.provider & ((self.had.schedule == 1) | (self.had.schedule == 3))
    }

    // The open RP closes. Direction 1: "each RP has 301".
    fn rp_closed(self) -> Verdict
        ensures { fault_in result ≡ cond (self.provider && not self.had.had301) 14 0 }
    {
        pick(self.provider & !self.had.had301, Err(Missing), Ok(()))
    }

    // 2, 3 and 4; placed: "any 2s, then 3s, then 4s". "Direction 2: record 1 stands" before them.
    fn head_refusal(self, placed: bool) -> Verdict
        ensures { fault_in result ≡ cond placed (cond (not self.provider && eqb self.place 0) 14 0) 13 }
    {
        pick(
            placed,
            pick(!self.provider & (self.place == 0), Err(Missing), Ok(())),
            Err(Place),
        )
    }

    // 5: it closes the RP and the group before it; direction 1: "each RP has 301", "a 51 is followed by 55 or 201". Direction 2:
    // "record 1 stands". "No group is newer than the one before it; equal days are good."
    fn group_refusal(self, r: Facts) -> Verdict
        requires { r.number ≡ 5 }
        ensures { fault_in result ≡ refusal_of self r }
    {
        let p = self.place;
        let good = pick(
            !(self.groups == 0) & (self.day < r.day),
            Err(DateOrder),
            Ok(()),
        );
        let lacks = self.lacking();
        if in_rp(p) {
            return pick(
                self.provider & !self.had.had301 | self.provider & lacks,
                Err(Missing),
                good,
            );
        }
        if in_front(p) | in_rest(p) {
            return pick(
                self.provider & (p == 51),
                Err(Place),
                pick(self.provider & lacks, Err(Missing), good),
            );
        }
        pick(
            in_head(p),
            pick(!self.provider & (p == 0), Err(Missing), good),
            Err(Place),
        )
    }

    // 701: it closes what a 5 closes, and the groups. Direction 1: "at least one group".
    fn end_refusal(self, r: Facts) -> Verdict
        requires { r.number ≡ 701 }
        ensures { fault_in result ≡ refusal_of self r }
    {
        let p = self.place;
        let lacks = self.lacking();
        let none = self.provider & (self.groups == 0);
        if in_rp(p) {
            return pick(
                self.provider & !self.had.had301 | self.provider & lacks | none,
                Err(Missing),
                Ok(()),
            );
        }
        if in_front(p) | in_rest(p) {
            return pick(
                self.provider & (p == 51),
                Err(Place),
                pick(self.provider & lacks | none, Err(Missing), Ok(())),
            );
        }
        pick(
            in_head(p) | (p == 701),
            pick(!self.provider & (p == 0) | none, Err(Missing), Ok(())),
            Err(Place),
        )
    }

    // 55: "Prescriptions are all without doctors, or the first is preceded by 55". It closes the RP before it.
    fn doctor_refusal(self, r: Facts) -> Verdict
        requires { r.number ≡ 55 }
        ensures { fault_in result ≡ refusal_of self r }
    {
        let p = self.place;
        let barred = self.barred();
        if in_rp(p) {
            return pick(
                (self.had.doctor == 0) | barred,
                Err(Place),
                self.rp_closed(),
            );
        }
        if in_front(p) {
            return pick(barred, Err(Place), Ok(()));
        }
        Err(Place)
    }

    // 201 that begins an RP, which has "1 in a group's first RP, one more in each next". In 64 bits, so that the next value always exists.
    fn new_rp(self, r: Facts) -> Verdict
        requires number_value { r.number ≡ 201 }
        requires rp_value { (in_drugs self.place && eqb r.rp self.had.rp) ≡ false }
        ensures { fault_in result ≡ refusal_of self r }
    {
        let p = self.place;
        let next = (self.had.rp as u64) + 1;
        let value = r.rp as u64;
        let good = pick(!(value == next), Err(Rp), Ok(()));
        if in_rp(p) {
            return pick(self.provider & !self.had.had301, Err(Missing), good);
        }
        pick(in_front(p) | (p == 55), good, Err(Place))
    }

    // 201: it is a further drug of the open RP, or, "with another value than the open RP begins a new RP; so does any 201
    // after a 301 or 391".
    fn drug_refusal(self, r: Facts) -> Verdict
        requires { r.number ≡ 201 }
        ensures { fault_in result ≡ refusal_of self r }
    {
        if r.rp == self.had.rp {
            if in_drugs(self.place) {
                return Ok(());
            }
            return self.new_rp(r);
        }
        self.new_rp(r)
    }

    // 301: "The usage name (second item) stands in direction 2 always, and in direction 1 when the open group has had an 11 with 4 and
    // the form isn't 9 or 10."
    fn usage_refusal(self, r: Facts) -> Verdict
        requires { r.number ≡ 301 }
        ensures { fault_in result ≡ refusal_of self r }
    {
        let p = self.place;
        let same = r.rp == self.had.rp;
        if r.named {
            return kept_rp(in_drugs(p), same);
        }
        if !self.provider
            | in_group(p) & (self.had.schedule == 4) & !((r.form == 9) | (r.form == 10))
        {
            return Err(Pair);
        }
        kept_rp(in_drugs(p), same)
    }

    // 401 to 601; after: "then any 401s, 411s, 501s, 601s" up to it. Direction 1: "a 51 is followed by 55 or 201".
    fn rest_refusal(self, behind: bool) -> Verdict
        ensures { fault_in result ≡ cond (in_rp self.place) (cond (self.provider && not self.had.had301) 14 0)
            (cond (in_front self.place) (cond (self.provider && eqb self.place 51) 13 0) (cond behind 0 13)) }
    {
        let p = self.place;
        if in_rp(p) {
            return self.rp_closed();
        }
        if in_front(p) {
            return pick(self.provider & (p == 51), Err(Place), Ok(()));
        }
        pick(behind, Ok(()), Err(Place))
    }

    // The refusal of the lowest number that the record breaks. A record's number settles most of what the rules ask, so each number
    // has its own: first where it may stand, then what else it is asked.
    fn refusal(self, r: Facts) -> Verdict
        ensures { fault_in result ≡ refusal_of self r }
    {
        let n = r.number;
        let p = self.place;
        let same = r.rp == self.had.rp;
        match n {
            1 => pick(p == 0, Ok(()), Err(Place)),
            2 => self.head_refusal((p == 0) | (p == 1) | (p == 2)),
            3 => self.head_refusal((p == 0) | (p == 1) | (p == 2) | (p == 3)),
            4 => self.head_refusal(in_head(p)),
            5 => self.group_refusal(r),
            11 => pick(p == 5, Ok(()), Err(Place)),
            15 => pick((p == 5) | (p == 11), Ok(()), Err(Place)),
            51 => pick(
                (p == 5) | (p == 11) | (p == 15),
                pick(self.barred(), Err(Place), Ok(())),
                Err(Place),
            ),
            55 => self.doctor_refusal(r),
            201 => self.drug_refusal(r),
            281 => kept_rp((p == 201) | (p == 281), same),
            291 => kept_rp(in_drugs(p), same),
            301 => self.usage_refusal(r),
            311 => kept_rp((p == 301) | (p == 311), same),
            391 => kept_rp(in_rp(p), same),
            // Direction 1: "a group without RP has .. no 401".
            401 => pick(
                self.provider & (self.had.rp == 0),
                Err(Place),
                self.rest_refusal(p == 401),
            ),
            411 => self.rest_refusal((p == 401) | (p == 411)),
            501 => self.rest_refusal((p == 401) | (p == 411) | (p == 501)),
            601 => self.rest_refusal(in_rest(p)),
            701 => self.end_refusal(r),
            _ => Err(Place),
        }
    }

    // The state after the record, with its RP and doctor.
    fn moved(self, r: Facts) -> Moved
        requires { Room self }
        ensures { result ≡ record { state = advance self r; rp = rp_of r; doctor = doctor_of self r } }
    {
        let n = r.number;
        let line = self.line + 1;
        let had = self.had;
        let next = State {
            place: n,
            line,
            had: had.after(r, line),
            ..self
        };
        match n {
            5 => Moved {
                state: State {
                    groups: self.groups + 1,
                    day: r.day,
                    ..next
                },
                rp: 0,
                doctor: 0,
            },
            201 => Moved {
                state: State {
                    drugs: self.drugs + 1,
                    ..next
                },
                rp: r.rp,
                doctor: had.doctor,
            },
            281 | 291 | 301 | 311 | 391 => Moved {
                state: next,
                rp: r.rp,
                doctor: had.doctor,
            },
            _ => Moved {
                state: next,
                rp: 0,
                doctor: 0,
            },
        }
    }

    // One record of the pattern. The state is handed back and not changed, so that a refused record leaves the caller's.
    pub fn step(self, r: Facts) -> Result<Moved, Refusal>
        requires { Room self }
        ensures { step_in result ≡ step_of self r }
    {
        self.refusal(r)?;
        Ok(self.moved(r))
    }

    // The end of the file closes what is open.
    pub fn finish(self) -> Result<(), Refusal>
        ensures { fault_in result ≡ finish_of self }
    {
        let p = self.place;
        pick(
            (p == 55)
                | !self.provider & (p == 0)
                | self.provider & (p == 51)
                | self.provider & (self.groups == 0)
                | self.provider & in_rp(p) & !self.had.had301
                | self.provider & in_group(p) & self.lacking(),
            Err(Missing),
            Ok(()),
        )
    }

    // The ordinal of the last record's group, 0 outside groups: the index's fourth number.
    #[tactic(auto, unfolding(crate::specs::State::group_of))]
    pub fn group(self) -> u32
        ensures { result ≡ group_of self }
    {
        if in_group(self.place) { self.groups } else { 0 }
    }

    // The line of the drug that the last record, a 281 or 291, belongs to, else 0: the index's sixth number.
    #[tactic(auto, unfolding(crate::specs::State::drug_of))]
    pub fn drug(self) -> u32
        ensures { result ≡ drug_of self }
    {
        if (self.place == 281) | (self.place == 291) {
            self.had.drug
        } else {
            0
        }
    }
}
