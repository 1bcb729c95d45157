// An array of a call's own, for what is made of a short, a middling and any input: clearing the last takes longer than reading a short input.
ghost use Rattle.std.specs.Prelude.{◌≡◌};
ghost use Rattle.buffers.specs.Room.{Roomy};

pub const SHORT: usize = 2048;

pub const MIDDLING: usize = 16384;

// No file is longer.
pub const ANY: usize = 65536;

// What work makes of a cleared array that holds so many bytes, or as many as a file may have, and of the output.
pub fn with_room<R, F: FnOnce(&mut [u8], &mut [u8]) -> R>(len: usize, out: &mut [u8], work: F) -> R
    requires { (lent : _) (o : _) → Roomy len lent.now → o.now ≡ out.old → F.pre work lent o }
    ensures { (lent : _) × (lent' : _) × (o : _) × (o' : _) × Roomy len lent.now × (o.now ≡ out.old) × (o'.now ≡ out.new) × F.post work lent o result lent' o' }
{
    if len <= SHORT {
        let mut room = [0u8; SHORT];
        return work(&mut room, out);
    }
    if len <= MIDDLING {
        let mut room = [0u8; MIDDLING];
        return work(&mut room, out);
    }
    let mut room = [0u8; ANY];
    work(&mut room, out)
}
