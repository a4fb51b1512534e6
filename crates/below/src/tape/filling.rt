// Filling a tape.
ghost use Rattle.std.specs.Prelude.{◌≡◌, ◌/◌, ◌<◌, true, false, length, Some, None};
ghost use Rattle.terms.specs.Sendings.{sending_of, is_packet};
ghost use Rattle.ports.specs.Radio.{accepts, after_take};
ghost use Rattle.slot.specs.Slots.{decoded};
ghost use Rattle.below.specs.Tape.{slot_at, written_at, tape_radioed, bytes_after, TapeKeeps};

use crate::tape::Tape;
use ports::radio::Radio;
use slot::{SLOT, encode};
use terms::instruction::Instruction;

// Writes the slot of an instruction over slot k of some bytes. For bytes that are no packet it says no and alters nothing.
fn write_at(bytes: &mut [u8], k: usize, instruction: Instruction<'_>) -> bool
    requires { k < length bytes.old / 661 }
    ensures answer { result ≡ is_packet (length instruction.entry.packet.now) }
    ensures bytes { bytes.new ≡ written_at bytes.old k (sending_of instruction.entry) }
    ensures back { result ≡ true → decoded (slot_at bytes.new k) ≡ Some (sending_of instruction.entry) }
{
    // by index: after a write through as_chunks_mut nothing is known of the bytes
    let at = SLOT * k;
    encode(&mut bytes[at..at + SLOT], instruction)
}

impl<'a> Tape<'a> {
    // A tape that has taken nothing. It alters no byte.
    pub fn new(bytes: &'a mut [u8]) -> Tape<'a>
        ensures radioed { tape_radioed result ≡ record { count = 0; latest = None; capacity = length bytes.old / 661 } }
        ensures bytes { result.bytes.now ≡ bytes.old }
        ensures lender { result.bytes.ghost_name ≡ bytes.entry.ghost_name }
    {
        Tape { bytes, taken: 0 }
    }
}

impl Radio for Tape<'_> {
    ghost radioed = { tape_radioed };

    ghost lender = { λ t. t.bytes.ghost_name };

    fn ready(&self) -> bool {
        self.taken < self.bytes.len() / SLOT
    }

    fn take(&mut self, instruction: Instruction<'_>) -> bool
        ensures answer { result ≡ accepts (tape_radioed self.old) (sending_of instruction.entry) }
        ensures after { tape_radioed self.new ≡ after_take (tape_radioed self.old) (sending_of instruction.entry) }
        ensures refused { result ≡ false → self.new ≡ self.old }
        ensures lender { self.new.bytes.ghost_name ≡ self.old.bytes.ghost_name }
        ensures bytes { self.new.bytes.now ≡ bytes_after self.old.bytes.now self.old.taken (sending_of instruction.entry) }
    {
        if !self.ready() || !write_at(self.bytes, self.taken, instruction) {
            return false;
        }
        self.taken += 1;
        true
    }
}

// What a tape took, it keeps.
pub fn tapes_keep()
    ensures { TapeKeeps }
{}
