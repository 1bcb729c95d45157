// Looks for a piece of a set among the pieces as they lie. Document 02 (iv): "the hunt for piece k is to go through them as they lie and end at the
// piece found". Definitions: specs/Places.antt; promises: specs/Search.antt. The pieces are given by their k's alone, two bytes each, since joining 999
// pieces takes 499,500 looks.
#![tactic(auto)]

ghost use Rattle.search.specs.Places.{CountIs};

// How many pieces are looked at for piece k: up to the first that is k, or all.
#[tactic(auto, using(crate::proofs::Looks::looking_laws))]
pub fn find_piece(ks: &[u16], k: u16) -> usize
    ensures { CountIs k ks.now result }
{
    for (before, here) in ks.iter().enumerate() {
        if *here == k {
            return before + 1;
        }
    }
    ks.len() // none is k
}
