// What a trace works on.
use below::book::Book;
use below::mailbox::Mailbox;
use below::pattern::Pattern;
use cell::PACKET_MEMORY;
use cell::cell::Cell;
use terms::answer::{Refusal, Reply};

pub(crate) mod line;

// What an accepted line did.
#[derive(Clone, Copy)]
pub(crate) enum Accepted {
    Replied(Reply),
    Deposited,
    Withdrawn,
    Packet,
}

// The answer to a line.
pub(crate) type Answer = Result<Accepted, Refusal>;

// A cell fresh from set-up, and its measurement gaps.
#[derive(Drop)]
pub(crate) struct Equipped {
    cell: Cell,
    gaps: Pattern,
}

// Everything that a trace works on once a cell is set up.
#[derive(Drop)]
pub(crate) struct Session<'a> {
    cell: Cell,
    gaps: Pattern,
    memory: [u8; PACKET_MEMORY],
    radio: Mailbox,
    book: Book<'a>,
}

// A trace under way: the records of its book, and its session once a set-up was accepted.
#[derive(Drop)]
pub(crate) struct Trace<'a> {
    pub(crate) records: &'a [u8],
    pub(crate) session: Option<Session<'a>>,
}
