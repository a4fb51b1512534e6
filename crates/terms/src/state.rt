// What a cell keeps between calls, beside its set-up and its packet memory.
use crate::grant::ConfiguredGrant;
use crate::process::Process;

// The repetitions of an asynchronous grant: those of this process, in each subframe below this one.
#[derive(Clone, Copy)]
pub struct Repetition {
    pub process: u8,
    pub until: u64,
}

// Packets begun and sendings made since set-up.
#[derive(Clone, Copy, PartialEq, Eq, Debug)]
pub struct Tally {
    pub packets: u64,
    pub sendings: u64,
}

#[derive(Clone, Copy)]
pub struct State {
    pub processes: [Process; 8],
    pub configured: Option<ConfiguredGrant>,
    pub repetition: Option<Repetition>,
    // the length of the packet in the Msg3 buffer, a stretch of packet memory too
    pub msg3: Option<u16>,
    pub tally: Tally,
    // the subframe that comes next
    pub clock: u64,
}
