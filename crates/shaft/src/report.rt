// The report: a line for each subframe that did something.
ghost use Rattle.std.specs.Prelude.{◌≡◌, take};
ghost use Rattle.terms.specs.Sendings.{told_of};
ghost use Rattle.shaft.specs.Reports.{tells_of, sent_of};

use std::fmt;
use terms::answer::{Outcome, Reply};
use terms::instruction::Instruction;

// How many bytes of a packet a line shows.
const SHOWN: usize = 8;

// The first bytes of a packet.
fn front(packet: &[u8]) -> &[u8]
    ensures { result.now ≡ take 8 packet.now }
{
    &packet[0..packet.len().min(SHOWN)]
}

// What a subframe came to, with the latest sending.
#[derive(Clone, Copy)]
pub(crate) struct Line<'a> {
    pub(crate) subframe: u64,
    pub(crate) reply: Reply,
    pub(crate) latest: Option<Instruction<'a>>,
}

impl Line<'_> {
    // Whether the subframe did something.
    pub(crate) fn tells(&self) -> bool
        ensures { result ≡ tells_of self.now.reply.outcome }
    {
        self.reply.outcome != Outcome::Idle
    }

    // What was sent in the subframe, if anything was.
    fn sending(&self) -> Option<Instruction<'_>>
        ensures { told_of result ≡ sent_of self.now.reply.outcome (told_of self.now.latest) }
    {
        match self.reply.outcome {
            Outcome::Sent => self.latest,
            _ => None,
        }
    }
}

// The bytes of a packet in short.
#[derive(Clone, Copy)]
struct Short<'a>(&'a [u8]);

impl fmt::Display for Short<'_> {
    fn fmt<W: fmt::Write>(&self, f: &mut fmt::Formatter<W>) -> fmt::Result {
        for byte in front(self.0) {
            write!(f, "{byte:02x}")?;
        }
        if self.0.len() > SHOWN {
            write!(f, "..")?;
        }
        Ok(())
    }
}

impl fmt::Display for Line<'_> {
    fn fmt<W: fmt::Write>(&self, f: &mut fmt::Formatter<W>) -> fmt::Result {
        let subframe = self.subframe;
        let process = self.reply.process;
        let outcome = self.reply.outcome;
        let sending = self.sending();
        write!(f, "{subframe:>3}  process {process}  {outcome}")?;
        if let Some(sending) = sending {
            let version = sending.version.0;
            write!(f, ", version {version}")?;
        }
        if self.reply.given_up {
            write!(f, ", given up")?;
        }
        if let Some(sending) = sending {
            let packet = Short(sending.packet);
            write!(f, ": {packet}")?;
        }
        Ok(())
    }
}

// A slot of the tape.
#[derive(Clone, Copy)]
pub(crate) struct Slot<'a> {
    pub(crate) number: usize,
    pub(crate) sending: Instruction<'a>,
}

impl fmt::Display for Slot<'_> {
    fn fmt<W: fmt::Write>(&self, f: &mut fmt::Formatter<W>) -> fmt::Result {
        let number = self.number;
        let subframe = self.sending.subframe;
        let process = self.sending.process;
        let version = self.sending.version.0;
        let mcs = self.sending.mcs;
        let packet = Short(self.sending.packet);
        write!(
            f,
            "slot {number}: subframe {subframe}, process {process}, version {version}, MCS {mcs}: {packet}"
        )
    }
}
