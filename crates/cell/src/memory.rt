// What a subframe does to packet memory, the source and the radio.
ghost use Rattle.std.specs.Prelude.{◌≡◌, ◌*◌, ◌≤◌, length, is_some, Some};
ghost use Rattle.std.specs.Option.{unwrap_or};
ghost use Rattle.ports.specs.Radio.{told};
ghost use Rattle.ports.specs.Source.{FitsSize, FitsAsked, source_after};
ghost use Rattle.rules.specs.Memory.{part, written};
ghost use Rattle.rules.specs.Entity.{msg3_taken, asked_by, obtained};
ghost use Rattle.rules.specs.Process.{on_air};
ghost use Rattle.rules.specs.Subframe.{sending_if, sending_by};
ghost use Rattle.rules.specs.Invariant.{FreshSized};
ghost use Rattle.cell.specs.Effects.{new_packet, with_packet, with_fresh};

use crate::PACKET_MEMORY;
use crate::roomy::Roomy;
use crate::stretch::Stretch;
use crate::tti::Tti;
use crate::work::Transmission;
use ports::radio::Radio;
use ports::source::Source;
use terms::decision::NewPacket;
use terms::grant::{GrantInForce, Reception};
use terms::instruction::{Instruction, LONGEST_PACKET};
use terms::version::RedundancyVersion;

// The length of the Msg3 packet that a grant takes.
fn take_msg3(reception: Reception, msg3: Option<u16>) -> Option<u16>
    ensures { result ≡ msg3_taken reception msg3 }
{
    match reception {
        Reception::RandomAccessResponse => msg3,
        _ => None,
    }
}

// Lengths come as numbers with their bound in the clauses, and in no type of their own: made from the records' numbers, it would need a case for a length that is too long, which never comes, at each place.
impl Stretch {
    // The stretch of the Msg3 buffer.
    pub(crate) const MSG3: Stretch = Stretch { number: 8 };

    // Where it begins: each has room for the longest packet.
    fn start(self) -> usize
        ensures { result ≡ 645 * self.number }
    {
        LONGEST_PACKET * usize::from(self.number)
    }

    // The source fills `n` bytes at the front, and nothing outside them, or has none.
    fn fill<S: Source>(self, memory: &mut [u8; PACKET_MEMORY], source: &mut S, n: u16) -> bool
        requires { n ≤ 645 }
        ensures answer { result ≡ is_some (S.offers source.old n) }
        ensures sizes { FitsSize n (S.offers source.old n) }
        ensures memory { memory.new ≡ with_packet memory.old self.number (S.offers source.old n) }
        ensures source { source.new ≡ source_after S.offers S.used source.old (Some n) }
    {
        let at = self.start();
        source.fill(&mut memory[at..at + usize::from(n)])
    }

    // A packet goes to the front.
    pub(crate) fn write(self, memory: &mut [u8; PACKET_MEMORY], packet: &[u8])
        requires { length packet.now ≤ 645 }
        ensures { memory.new ≡ written memory.old self.number packet.now }
    {
        let at = self.start();
        memory[at..at + packet.len()].copy_from_slice(packet);
    }

    // The Msg3 packet, of `n` bytes, goes to the front, and stays in the Msg3 buffer.
    fn copy_msg3(self, memory: &mut [u8; PACKET_MEMORY], n: u16)
        requires { n ≤ 645 }
        ensures { memory.new ≡ written memory.old self.number (part memory.old 8 n) }
    {
        let at = Stretch::MSG3.start();
        memory.copy_within(at..at + usize::from(n), self.start());
    }

    // A packet for a new transmission goes to the front: from the Msg3 buffer, or else from the source.
    pub(crate) fn obtain<S: Source>(
        self,
        memory: &mut [u8; PACKET_MEMORY],
        source: &mut S,
        msg3: Option<u16>,
        g: GrantInForce,
    ) -> Option<NewPacket>
        requires within { g.size ≤ 645 }
        requires bound { (1 ≤ unwrap_or msg3 1) × (unwrap_or msg3 1 ≤ 645) }
        ensures sized { FreshSized (obtained g msg3 memory.old (S.offers source.old)) }
        ensures fits { FitsAsked (S.offers source.old) (asked_by (msg3_taken g.reception msg3) g.size) }
        ensures packet { result ≡ new_packet (obtained g msg3 memory.old (S.offers source.old)) }
        ensures memory { memory.new ≡ with_fresh memory.old self.number (obtained g msg3 memory.old (S.offers source.old)) }
        ensures source { source.new ≡ source_after S.offers S.used source.old (asked_by (msg3_taken g.reception msg3) g.size) }
    {
        if let Some(length) = take_msg3(g.reception, msg3) {
            self.copy_msg3(memory, length);
            return Some(NewPacket {
                length,
                from_msg3: true,
            });
        }
        self.fill(memory, source, g.size).then_some(NewPacket {
            length: g.size,
            from_msg3: false,
        })
    }
}

impl Tti {
    // The stretch of its process.
    pub(crate) fn stretch(self) -> Stretch
        ensures { result.number ≡ self.process }
    {
        Stretch {
            number: self.process,
        }
    }

    // The radio reads the packet of the process from the middle of packet memory, if nothing keeps the transmission off the air.
    pub(crate) fn send<R: Radio>(
        self,
        memory: &[u8; PACKET_MEMORY],
        roomy: Roomy<'_, R>,
        t: Transmission,
    ) -> bool
        requires { (1 ≤ unwrap_or t.process.buffer 0) × (unwrap_or t.process.buffer 0 ≤ 645) }
        ensures sent { result ≡ on_air t.acked self.gap t.process }
        ensures radio { R.radioed roomy.exit.0.now ≡ told (R.radioed roomy.entry.radio.now) (sending_if (on_air t.acked self.gap t.process) (sending_by self.clock self.process memory.now t.process)) }
        ensures lender { R.lender roomy.exit.0.now ≡ R.lender roomy.entry.radio.now }
    {
        if !t.goes_on_air(self.gap) {
            return false;
        }
        let p = t.process;
        let at = self.stretch().start();
        // what is transmitted holds a packet, so the 0 is never met
        let n = usize::from(p.buffer.unwrap_or(0));
        // through the field: with the struct taken apart, room would have to be left at the return
        roomy.radio.take(Instruction {
            subframe: self.clock,
            process: self.process,
            version: RedundancyVersion::from(p.current_irv),
            mcs: p.mcs,
            resource: p.resource,
            packet: &memory[at..at + n],
        })
    }
}
