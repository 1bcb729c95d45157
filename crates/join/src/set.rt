// The pieces of a set as they lie: their tables, and the search for one among them.
ghost use Rattle.std.specs.Prelude.{◌≡◌, ◌≤◌, ◌<◌, length};

use crate::member::{Member, Span, read_member};
use crate::rows::next_piece;
use replies::Refusal;

// The pieces of a set as they lie. Their k's are an array of their own, two bytes each, since joining 999 pieces takes 499,500 looks at them.
#[derive(Drop)]
pub(crate) struct Members<const N: usize> {
    pub count: usize,
    ks: [u16; N],
    rows: [Span; N],
    ghost fits: { count ≤ N },
    ghost ks_room: { length ks ≡ N },
    ghost rows_room: { length rows ≡ N },
}

impl<const N: usize> Members<N> {
    ghost use Rattle.join.specs.Spans.{First, Stored, CollectIs, SpotIs};

    // None yet.
    pub fn new() -> Self
        ensures { result.count ≡ 0 }
    {
        Members {
            count: 0,
            ks: [0; N],
            rows: [Span { from: 0, to: 0 }; N],
        }
    }

    // The next piece.
    fn store(&mut self, member: Member)
        requires k_bound { member.mark.place ≤ 999 }
        requires room { self.old.count < N }
        ensures { Stored self.old self.new member }
    {
        self.ks[self.count] = member.mark.place as u16;
        self.rows[self.count] = member.rows;
        self.count += 1;
    }

    // The pieces of a set like its first, where there are as many as it says, and they agree.
    #[tactic(auto, using(crate::proofs::SetLaws::collect_laws))]
    pub fn collect(&mut self, s: &[u8], first: Member) -> Result<(), Refusal>
        requires none { self.old.count ≡ 0 }
        requires some { 1 ≤ first.mark.count }
        requires room { first.mark.count ≤ N }
        requires first { First s.now first }
        ensures { CollectIs s.now first self.new result }
    {
        self.store(first);
        let mut at = first.stop;
        while let Some(opening) = next_piece(s, at)? {
            let member = read_member(s, opening, first)?;
            if first.mark.count <= self.count {
                return Err(Refusal::Set);
            }
            self.store(member);
            at = member.stop;
        }
        if self.count != first.mark.count {
            return Err(Refusal::Set);
        }
        Ok(())
    }

    // The rows of piece k, looked for among the pieces as they lie. The one at the count is looked at once more: the last and none have one count.
    #[tactic(auto, using(crate::proofs::SetLaws::spot_laws))]
    pub fn find_rows(&self, k: usize) -> Option<Span>
        requires some { 1 ≤ self.now.count }
        requires k_bound { k ≤ 999 }
        ensures { SpotIs self.now k result }
    {
        let wanted = k as u16;
        let i = search::find_piece(&self.ks[..self.count], wanted) - 1;
        (self.ks[i] == wanted).then_some(self.rows[i])
    }
}
