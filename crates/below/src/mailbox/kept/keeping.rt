// Keeping an instruction.
ghost use Rattle.std.specs.Prelude.{◌≡◌, Some};
ghost use Rattle.terms.specs.Sendings.{sending_of};
ghost use Rattle.below.specs.Mailbox.{kept_sending, kept_of};

use crate::mailbox::kept::Kept;
use crate::stretch::lay;
use terms::instruction::{Instruction, LONGEST_PACKET, is_packet_size};

impl Kept {
    // What is kept of an instruction, if its bytes are a packet; no TryFrom, which would need an error that nobody reads.
    pub(crate) fn of(instruction: Instruction<'_>) -> Option<Kept>
        ensures { kept_sending result ≡ kept_of (sending_of instruction.entry) }
    {
        let size = instruction.packet.len();
        if !is_packet_size(size) {
            return None;
        }
        let mut packet = [0; LONGEST_PACKET];
        lay(&mut packet, instruction.packet);
        Some(Kept {
            subframe: instruction.subframe,
            process: instruction.process,
            version: instruction.version,
            mcs: instruction.mcs,
            resource: instruction.resource,
            size,
            packet,
        })
    }

    // The instruction that is kept; no From, since it borrows the packet.
    pub(crate) fn instruction(&self) -> Instruction<'_>
        ensures { Some (sending_of result) ≡ kept_sending (Some self.now) }
    {
        Instruction {
            subframe: self.subframe,
            process: self.process,
            version: self.version,
            mcs: self.mcs,
            resource: self.resource,
            packet: &self.packet[..self.size],
        }
    }
}
