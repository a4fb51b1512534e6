// A tape: a radio that writes each instruction into the next slot of given bytes.
ghost use Rattle.std.specs.Prelude.{◌/◌, ◌≤◌, length};

pub mod filled;
mod filling;

pub use crate::tape::filling::tapes_keep;

// Slots of 661 bytes, filled in turn. Bytes behind the last whole slot are never used. The bytes are lent, with a count beside them, and no Vec: a tape keeps to the memory that is given to it.
#[derive(Drop)]
pub struct Tape<'a> {
    bytes: &'a mut [u8],
    // how many instructions were taken
    taken: usize,
    // not more slots are filled than there are
    ghost filled: { taken ≤ length bytes.now / 661 },
}
