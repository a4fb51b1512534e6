// What a radio is told to send.
ghost use Rattle.std.specs.Prelude.{◌≡◌};
ghost use Rattle.terms.specs.Sendings.{is_packet};

use crate::version::RedundancyVersion;

// The bytes of the longest packet.
pub const LONGEST_PACKET: usize = 645;

// Whether a packet can have so many bytes.
pub fn is_packet_size(size: usize) -> bool
    ensures { result ≡ is_packet size }
{
    1 <= size && size <= LONGEST_PACKET
}

// The packet is a part of the memory of whoever instructs.
#[derive(Clone, Copy, PartialEq, Eq, Debug)]
pub struct Instruction<'a> {
    pub subframe: u64,
    pub process: u8,
    pub version: RedundancyVersion,
    pub mcs: u8,
    pub resource: u16,
    pub packet: &'a [u8],
}
