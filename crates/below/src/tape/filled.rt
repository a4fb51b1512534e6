// The filled slots of a tape.
ghost use Rattle.std.specs.Prelude.{◌≡◌};
ghost use Rattle.terms.specs.Sendings.{told_of};
ghost use Rattle.slot.specs.Slots.{decoded};
ghost use Rattle.below.specs.Tape.{slot_at, said_in, tape_radioed};

use crate::tape::Tape;
use slot::{SLOT, decode};
use terms::instruction::Instruction;

// What slot k of some bytes says.
fn read_at(bytes: &[u8], k: usize) -> Option<Instruction<'_>>
    ensures { told_of result ≡ decoded (slot_at bytes.now k) }
{
    let (slots, _) = bytes.as_chunks::<SLOT>();
    decode(slots.get(k)?)
}

impl Tape<'_> {
    // How many instructions were taken.
    pub fn count(&self) -> usize
        ensures { result ≡ (tape_radioed self.now).count }
    {
        self.taken
    }

    // The instruction in slot k, if that is filled.
    pub fn instruction(&self, k: usize) -> Option<Instruction<'_>>
        ensures { told_of result ≡ said_in self.now.bytes.now (tape_radioed self.now).count k }
    {
        if k >= self.count() {
            return None;
        }
        read_at(self.bytes, k)
    }
}
