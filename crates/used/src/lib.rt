// Looks for an ID among those that have been used. Definitions: ids, specs/Used.antt; specs/Searching.antt has what the functions here ask and answer.
// An ID of the run costs one comparison of eight bytes, its bytes 6 to 13, and a second where these are the same: 0 to 7.
#![tactic(auto)]

ghost use Rattle.std.specs.Prelude.{◌≡◌, ◌+◌, length, drop, take};
ghost use Rattle.lists.specs.Lists.{same};
ghost use Rattle.lists.specs.Searching.{part};
ghost use Rattle.ids.specs.Used.{unused};
ghost use Rattle.used.specs.Searching.{EightIn, Given};

// Whether eight bytes from i on are those of another slice from j on. The loop has no way out, so that the compiler compares them at once: `==` of
// slices compares four, and then calls a function.
#[tactic(auto, using(crate::proofs::EightLaws::eight_laws))]
fn same_eight(a: &[u8], i: usize, b: &[u8], j: usize) -> bool
    requires { EightIn a.now i b.now j }
    ensures { result ≡ same (part a.now i (i + 8)) (part b.now j (j + 8)) }
{
    let mut equal = true;
    for k in 0..8 {
        equal &= a[i + k] == b[j + k];
    }
    equal
}

// Whether the ID stands in the run from a position on. IDs differ most often in their last bytes, so these are asked first.
#[tactic(auto, using(crate::proofs::EightLaws::id_laws))]
fn stands_at(used: &[u8], at: usize, id: &[u8]) -> bool
    requires { Given used.now at id.now }
    ensures { result ≡ same (take 14 (drop at used.now)) id.now }
{
    same_eight(used, at + 6, id, 6) && same_eight(used, at, id, 0)
}

// Whether refusal 24 lets an ID of 14 bytes pass. The IDs go by their number: an iterator over the run's parts takes a sixth more instructions. Out of
// line, so that the loop has the registers for itself: within cut its position went through memory, in twice the time.
#[inline(never)]
#[tactic(auto, using(crate::proofs::RunLaws::run_laws))]
pub fn is_unused(id: &[u8], used: &[u8]) -> bool
    requires { length id.now ≡ 14 }
    ensures { result ≡ unused id.now used.now }
{
    if used.len() % 14 != 0 {
        return false;
    }
    for k in 0..used.len() / 14 {
        if stands_at(used, 14 * k, id) {
            return false;
        }
    }
    true
}
