// What the HARQ entity requests of a process, and what a transmission makes of it.
ghost use Rattle.std.specs.Prelude.{◌≡◌};
ghost use Rattle.rules.specs.Process.{renewed, counted, adapted, repeated, advanced, maximum, gives_up, transmitted};

use crate::harq_process::HarqProcess;
use crate::process::{index_at_first, is_synchronous, reference_followed, version_granted};
use terms::decision::NewPacket;
use terms::grant::GrantInForce;
use terms::process::{Feedback, Process};
use terms::version::Irv;

impl HarqProcess {
    // A new transmission.
    pub(crate) fn renew(self, g: GrantInForce, packet: NewPacket) -> Process
        ensures { result ≡ renewed self.setup g packet.length packet.from_msg3 self.process }
    {
        Process {
            buffer: Some(packet.length),
            from_msg3: packet.from_msg3,
            current_tx_nb: 0,
            harq_feedback: Feedback::Nack,
            current_irv: index_at_first(self.setup.kind, g),
            mcs: g.mcs,
            resource: g.resource,
            reference_ndi: reference_followed(g.reception, self.process.reference_ndi),
            awaits_answer: self.process.awaits_answer,
        }
    }

    // CURRENT_TX_NB after a retransmission.
    fn count(self) -> u8
        ensures { result ≡ counted self.setup.kind self.process.current_tx_nb }
    {
        if is_synchronous(self.setup.kind) {
            self.process.current_tx_nb + 1
        } else {
            self.process.current_tx_nb
        }
    }

    // An adaptive retransmission.
    pub(crate) fn adapt(self, g: GrantInForce) -> Process
        ensures { result ≡ adapted self.setup g self.process }
    {
        let p = self.process;
        Process {
            current_tx_nb: self.count(),
            harq_feedback: Feedback::Nack,
            current_irv: Irv::from(version_granted(self.setup.kind, g)),
            mcs: if g.mcs <= 28 { g.mcs } else { p.mcs },
            resource: g.resource,
            reference_ndi: reference_followed(g.reception, p.reference_ndi),
            ..p
        }
    }

    // A non-adaptive retransmission.
    pub(crate) fn repeat(self) -> Process
        ensures { result ≡ repeated self.setup self.process }
    {
        Process {
            current_tx_nb: self.count(),
            ..self.process
        }
    }

    // A sending was made.
    fn advance(self) -> Process
        ensures { result ≡ advanced self.setup self.process }
    {
        let p = self.process;
        Process {
            current_irv: p.current_irv.next(),
            awaits_answer: is_synchronous(self.setup.kind) || p.awaits_answer,
            ..p
        }
    }

    // The maximum number of transmissions of its packet.
    fn maximum(self) -> u8
        ensures { result ≡ maximum self.setup self.process.from_msg3 }
    {
        if self.process.from_msg3 {
            self.setup.max_harq_msg3_tx
        } else {
            self.setup.max_harq_tx
        }
    }

    // Whether the transmissions of its packet are used up.
    pub(crate) fn is_last(self) -> bool
        ensures { result ≡ gives_up self.setup self.process }
    {
        is_synchronous(self.setup.kind) && self.process.current_tx_nb + 1 == self.maximum()
    }

    // After a transmission, sent or not: the last one flushes the buffer.
    pub(crate) fn transmit(self, sent: bool) -> Process
        ensures { result ≡ transmitted self.setup sent self.process }
    {
        let q = if sent { self.advance() } else { self.process };
        if self.is_last() {
            return Process { buffer: None, ..q };
        }
        q
    }
}
