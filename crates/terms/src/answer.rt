// What the calls answer, and the number of each answer.
ghost use Rattle.std.specs.Prelude.{◌≡◌, Some};
ghost use Rattle.terms.specs.Numbers.{outcome_number, outcome_words, refusal_number, refusal_words};

use crate::version::RedundancyVersion;
use std::error::Error;
use std::fmt;

// What a subframe came to.
#[derive(Clone, Copy, PartialEq, Eq, Debug)]
pub enum Outcome {
    // nothing was asked for
    Idle = 0,
    // a retransmission was asked of an empty buffer
    EmptyBuffer = 1,
    // a new transmission was wanted, and no packet was there
    NoPacket = 2,
    // the packet went to the radio
    Sent = 3,
    // a measurement gap kept the packet back
    Gap = 4,
    // an ACK kept the packet back
    Acknowledged = 5,
}

impl From<Outcome> for u8 {
    ghost from_gives = { λ outcome number. number ≡ outcome_number outcome };

    fn from(outcome: Outcome) -> u8 {
        outcome as u8
    }
}

impl fmt::Display for Outcome {
    ghost output = { λ outcome. Some (outcome_words outcome) };

    fn fmt<W: fmt::Write>(&self, f: &mut fmt::Formatter<W>) -> fmt::Result {
        f.write_str(match self {
            Outcome::Idle => "idle",
            Outcome::EmptyBuffer => "empty buffer",
            Outcome::NoPacket => "no packet",
            Outcome::Sent => "sent",
            Outcome::Gap => "gap",
            Outcome::Acknowledged => "acknowledged",
        })
    }
}

// The answer to a subframe.
#[derive(Clone, Copy, PartialEq, Eq, Debug)]
pub struct Reply {
    pub outcome: Outcome,
    // 8 where the subframe has no process; a number and no Option, since the reply's numbers are the project's rule, and a trace writes them as they stand
    pub process: u8,
    // of the sending; 0 where there was none, by the same rule
    pub version: RedundancyVersion,
    // the packet's transmissions are used up, and its buffer was flushed
    pub given_up: bool,
}

// Why a call was refused.
#[derive(Clone, Copy, PartialEq, Eq, Debug)]
pub enum Refusal {
    // set-up
    CellKind = 1,
    Maximum = 2,
    Interval = 3,
    Start = 4,
    // subframe
    PacketMemory = 5,
    ClockEnded = 6,
    RadioFull = 7,
    NoAnswerDue = 8,
    GrantFields = 9,
    RepetitionRuns = 10,
    OffBundle = 11,
    NewTransmissionMcs = 12,
    // Msg3 deposit and withdrawal
    PacketLength = 13,
    Msg3Held = 14,
    Msg3Empty = 15,
    // a line of a trace
    NotHexadecimal = 16,
    NotFrame = 17,
    // the tallies of a site
    SiteList = 18,
    // a pattern of measurement gaps
    GapPattern = 19,
}

impl From<Refusal> for u8 {
    ghost from_gives = { λ refusal number. number ≡ refusal_number refusal };

    fn from(refusal: Refusal) -> u8 {
        refusal as u8
    }
}

impl fmt::Display for Refusal {
    ghost output = { λ refusal. Some (refusal_words refusal) };

    fn fmt<W: fmt::Write>(&self, f: &mut fmt::Formatter<W>) -> fmt::Result {
        let number = u8::from(*self);
        write!(f, "refused with {number}")
    }
}

impl Error for Refusal {}
