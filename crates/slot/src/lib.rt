// The slot format: an instruction in 661 bytes.
#![tactic(auto)]

ghost use Rattle.std.specs.Prelude.{◌≡◌, ◌+◌, ◌<◌, true, Some};
ghost use Rattle.terms.specs.Sendings.{sending_of, told_of, is_packet};
ghost use Rattle.slot.specs.Slots.{heading, decoded, takes_slot, after_encoding, SlotsGiveBack, WorkedSlot};

use terms::instruction::{Instruction, LONGEST_PACKET, is_packet_size};
use terms::version::RedundancyVersion;

// The bytes of a slot before the packet.
pub const HEADING: usize = 16;

// The bytes of a slot.
pub const SLOT: usize = HEADING + LONGEST_PACKET;

// The bytes of an instruction's slot before the packet; no From, since neither an array nor an Instruction is a type of this crate.
pub fn heading_of(instruction: Instruction<'_>) -> [u8; HEADING]
    ensures { result ≡ heading (sending_of instruction.entry) }
{
    let [t0, t1, t2, t3, t4, t5, t6, t7] = instruction.subframe.to_be_bytes();
    let [r0, r1] = instruction.resource.to_be_bytes();
    // the two lowest bytes of the length
    let [n0, n1] = ((instruction.packet.len() % 0x1_0000) as u16).to_be_bytes();
    let Instruction {
        process,
        version,
        mcs,
        ..
    } = instruction;
    [
        t0, t1, t2, t3, t4, t5, t6, t7, process, version.0, mcs, 0, r0, r1, n0, n1,
    ]
}

// Writes the slot of an instruction into a stretch of 661 bytes. Of any other stretch, and for bytes that are no packet, it says no and alters nothing.
pub fn encode(stretch: &mut [u8], instruction: Instruction<'_>) -> bool
    ensures answer { result ≡ takes_slot stretch.old (sending_of instruction.entry) }
    ensures bytes { stretch.new ≡ after_encoding stretch.old (sending_of instruction.entry) }
    ensures back { result ≡ true → decoded stretch.new ≡ Some (sending_of instruction.entry) }
{
    let packet = instruction.packet;
    if stretch.len() != SLOT || !is_packet_size(packet.len()) {
        return false;
    }
    stretch.fill(0);
    stretch[..HEADING].copy_from_slice(&heading_of(instruction));
    stretch[HEADING..HEADING + packet.len()].copy_from_slice(packet);
    true
}

// The instruction of the slot in front of some bytes. There is none where the bytes are fewer than a slot's, or state another length than a packet's.
#[tactic(auto, unfolding(crate::specs::Slots::decoded))]
pub fn decode(bytes: &[u8]) -> Option<Instruction<'_>>
    ensures { told_of result ≡ decoded bytes.now }
{
    // asked once, so that no part below has to ask again
    if bytes.len() < SLOT {
        return None;
    }
    let (subframe, rest) = bytes.split_first_chunk::<8>()?;
    let (&[process, version, mcs, _], rest) = rest.split_first_chunk::<4>()?;
    let (resource, rest) = rest.split_first_chunk::<2>()?;
    let (size, rest) = rest.split_first_chunk::<2>()?;
    let size = usize::from(u16::from_be_bytes(*size));
    if !is_packet_size(size) {
        return None;
    }
    Some(Instruction {
        subframe: u64::from_be_bytes(*subframe),
        process,
        version: RedundancyVersion(version),
        mcs,
        resource: u16::from_be_bytes(*resource),
        packet: &rest[..size],
    })
}

// A slot gives back what was written to it, and one slot is worked byte by byte.
pub fn slots_stand()
    ensures back { SlotsGiveBack }
    ensures worked { WorkedSlot }
{}
