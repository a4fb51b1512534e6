// The stages between a grant and a sending.
use crate::answer::{Outcome, Reply};
use crate::grant::GrantInForce;
use crate::process::Process;

// What the HARQ entity decides for the process of a subframe.
#[derive(Clone, Copy)]
pub enum Decision {
    // nothing is instructed
    Rest(Outcome),
    // a new transmission, if a packet can be obtained
    New(GrantInForce),
    Adaptive(GrantInForce),
    NonAdaptive,
}

// A packet that was obtained for a new transmission.
#[derive(Clone, Copy)]
pub struct NewPacket {
    pub length: u16,
    pub from_msg3: bool,
}

// What a subframe has its process do, with the process as it stands before anything is sent.
#[derive(Clone, Copy)]
pub enum Work {
    // nothing is transmitted
    Rest(Outcome, Process),
    // a new transmission
    New(Process),
    // a retransmission; the mark, which the rules reckon with, says that an ACK keeps it off the air
    Again(Process, bool),
}

// What became of the work.
#[derive(Clone, Copy)]
pub struct Conclusion {
    pub process: Process,
    pub reply: Reply,
    // a packet began
    pub begun: bool,
    // the radio was told to send
    pub sent: bool,
}
