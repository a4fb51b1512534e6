// What a mailbox keeps of an instruction.
ghost use Rattle.std.specs.Prelude.{◌≤◌};

mod keeping;

use terms::instruction::LONGEST_PACKET;
use terms::version::RedundancyVersion;

// An instruction with its packet at the front of an array, and the size beside it, since the libraries stand on the standard library alone.
#[derive(Clone, Copy)]
pub(crate) struct Kept {
    subframe: u64,
    process: u8,
    version: RedundancyVersion,
    mcs: u8,
    resource: u16,
    // the bytes of the packet
    size: usize,
    packet: [u8; LONGEST_PACKET],
    ghost fits: { size ≤ 645 },
}
