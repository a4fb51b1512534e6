// A HARQ process.
use crate::version::Irv;

#[derive(Clone, Copy, PartialEq, Eq, Debug)]
pub enum Feedback {
    Nack,
    Ack,
}

#[derive(Clone, Copy)]
pub struct Process {
    // the HARQ buffer: empty, or the length of the packet in the process's stretch of packet memory, which is lent and can hold no Vec
    pub buffer: Option<u16>,
    pub from_msg3: bool,
    pub current_tx_nb: u8,
    pub harq_feedback: Feedback,
    pub current_irv: Irv,
    pub mcs: u8,
    pub resource: u16,
    // the NDI of the latest C-RNTI grant that was followed, where it still counts
    pub reference_ndi: Option<u8>,
    pub awaits_answer: bool,
}
