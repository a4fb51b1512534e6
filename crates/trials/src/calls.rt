// Calls with values that no trace brings. They give numbers and compare refusals by their numbers, since these are what callers are promised.
ghost use Rattle.std.specs.Prelude.{None};

use below::book::Book;
use below::mailbox::Mailbox;
use below::pattern::Pattern;
use cell::cell::Cell;
use ports::gap_plan::GapPlan;
use ports::radio::Radio;
use ports::source::Source;
use std::test::Fail;
use terms::answer::{Outcome, Refusal, Reply};
use terms::grant::Grant;
use terms::instruction::Instruction;
use terms::process::Feedback;
use terms::state::Tally;
use terms::version::RedundancyVersion;

// A new transmission of two bytes for the C-RNTI.
pub(crate) const GRANT: Grant = Grant {
    kind: 0,
    ndi: 1,
    mcs: 5,
    version: 0,
    process: 0,
    repetitions: 1,
    resource: 7,
    size: 2,
};

// The record of a packet of two bytes.
const RECORD: [u8; 4] = [0, 2, 0xa1, 0xb2];

// A radio that has no room.
#[derive(Clone, Copy)]
struct FullRadio;

impl Radio for FullRadio {
    ghost radioed = { λ _. record { count = 0; latest = None; capacity = 0 } };

    ghost lender = { λ _. 0 };

    fn ready(&self) -> bool {
        false
    }

    fn take(&mut self, _instruction: Instruction<'_>) -> bool {
        false
    }
}

// A cell with what stands below it: a book of one packet, and no gaps.
#[derive(Drop)]
struct Bench {
    cell: Cell,
    memory: [u8; 5805],
    radio: Mailbox,
    book: Book<'static>,
    gaps: Pattern,
}

impl Bench {
    // A plain cell from its first subframe on, over packet memory that is filled with a byte.
    fn new(start: u64, byte: u8) -> Result<Bench, Refusal> {
        Ok(Bench {
            cell: Cell::set_up(0, 3, 3, 0, start)?,
            memory: [byte; 5805],
            radio: Mailbox::new(),
            book: Book::new(&RECORD),
            gaps: Pattern::new(0, 0)?,
        })
    }

    // Three by name, and no function of memory and radio: it could not take the bench and a part of it.
    fn subframe(&mut self, grant: Option<Grant>) -> Result<Reply, Refusal> {
        self.cell.subframe(
            &mut self.memory,
            &mut self.radio,
            &mut self.book,
            &self.gaps,
            None,
            grant,
        )
    }

    // A subframe over other packet memory.
    fn subframe_in(&mut self, memory: &mut [u8], grant: Option<Grant>) -> Result<Reply, Refusal> {
        self.cell.subframe(
            memory,
            &mut self.radio,
            &mut self.book,
            &self.gaps,
            None,
            grant,
        )
    }

    // A subframe over a radio that has no room.
    fn subframe_full(
        &mut self,
        answer: Option<Feedback>,
        grant: Option<Grant>,
    ) -> Result<Reply, Refusal> {
        self.cell.subframe(
            &mut self.memory,
            &mut FullRadio,
            &mut self.book,
            &self.gaps,
            answer,
            grant,
        )
    }
}

// A refused subframe leaves the clock, the radio and the book as they were.
#[test]
fn memory_and_radio(rt: HostRuntime) -> Result<(), Fail> {
    let mut bench = Bench::new(0, 0)?;
    let short = bench.subframe_in(&mut [0; 5804], Some(GRANT));
    assert_eq!(rt; short.map_err(u8::from), Err(5));
    let long = bench.subframe_in(&mut [0; 5806], Some(GRANT));
    assert_eq!(rt; long.map_err(u8::from), Err(5));
    let full = bench.subframe_full(None, Some(GRANT));
    assert_eq!(rt; full.map_err(u8::from), Err(7));
    let full = bench.subframe_full(Some(Feedback::Ack), None);
    assert_eq!(rt; full.map_err(u8::from), Err(7));
    assert!(rt; bench.radio.latest().is_none());
    assert!(rt; bench.cell.clock() == 0);
    let reply = bench.subframe(Some(GRANT))?;
    assert!(rt; reply.outcome == Outcome::Sent);
    Ok(())
}

#[test]
fn end_of_the_clock(rt: HostRuntime) -> Result<(), Fail> {
    assert!(rt; Cell::set_up(0, 3, 3, 0, 0x1_0000_0000_0000).is_err());
    let mut bench = Bench::new(0xffff_ffff_ffff, 0)?;
    let reply = bench.subframe(Some(GRANT))?;
    assert!(rt; reply.outcome == Outcome::Sent && reply.process == 7);
    assert!(rt; bench.cell.clock() == 0x1_0000_0000_0000);
    assert_eq!(rt; bench.subframe(None).map_err(u8::from), Err(6));
    assert_eq!(rt;
        bench.subframe_in(&mut [0; 1], None).map_err(u8::from),
        Err(5)
    );
    Ok(())
}

// One packet is sent three times and given up, and the mailbox keeps the last sending.
#[test]
fn tally_and_latest(rt: HostRuntime) -> Result<(), Fail> {
    let mut bench = Bench::new(0, 0)?;
    assert_eq!(rt;
        bench.cell.tally(),
        Tally {
            packets: 0,
            sendings: 0
        }
    );
    assert!(rt; bench.subframe(Some(GRANT)).is_ok());
    for _ in 0..24 {
        assert!(rt; bench.subframe(None).is_ok());
    }
    assert_eq!(rt;
        bench.cell.tally(),
        Tally {
            packets: 1,
            sendings: 3
        }
    );
    let last = Instruction {
        subframe: 16,
        process: 0,
        version: RedundancyVersion(3),
        mcs: 5,
        resource: 7,
        packet: &[0xa1, 0xb2],
    };
    assert_eq!(rt; bench.radio.latest(), Some(last));
    Ok(())
}

// The largest packet is padded from two bytes; a larger one is refused.
#[test]
fn largest_packet(rt: HostRuntime) -> Result<(), Fail> {
    let mut bench = Bench::new(7, 1)?;
    let largest = Grant { size: 645, ..GRANT };
    let larger = Grant { size: 646, ..GRANT };
    assert_eq!(rt; bench.subframe(Some(larger)).map_err(u8::from), Err(9));
    assert!(rt; bench.subframe(Some(largest)).is_ok());
    let Some(latest) = bench.radio.latest() else {
        return Err(Fail::new("nothing was sent"));
    };
    let mut padded = [0; 645];
    padded[0] = 0xa1;
    padded[1] = 0xb2;
    assert!(rt; latest.process == 7 && latest.packet == padded.as_slice());
    assert!(rt; bench.memory[4514] == 1 && bench.memory[5160] == 1);
    Ok(())
}

fn instruction(packet: &[u8]) -> Instruction<'_> {
    Instruction {
        subframe: 1,
        process: 2,
        version: RedundancyVersion(3),
        mcs: 4,
        resource: 5,
        packet,
    }
}

// A mailbox takes packets of 1 to 645 bytes alone.
#[test]
fn mailbox(rt: HostRuntime) {
    let mut radio = Mailbox::new();
    assert!(rt; radio.ready() && !radio.take(instruction(&[])));
    assert!(rt; !radio.take(instruction(&[6; 646])) && radio.latest().is_none());
    assert!(rt; radio.take(instruction(&[6; 645])));
    assert_eq!(rt; radio.latest(), Some(instruction(&[6; 645])));
}

// The second record is cut, so the book ends after the first.
#[test]
fn book(rt: HostRuntime) {
    let mut book = Book::new(&[0, 2, 0xa1, 0xb2, 0, 2, 0xc3]);
    let mut stretch = [9; 3];
    assert!(rt; !book.waits(1) && book.waits(2) && book.waits(645) && !book.waits(646));
    assert!(rt; !book.fill(&mut stretch[..1]) && stretch == [9, 9, 9]);
    assert!(rt; book.fill(&mut stretch) && stretch == [0xa1, 0xb2, 0]);
    assert!(rt; !book.waits(2) && !book.fill(&mut stretch[..2]));
    assert!(rt; stretch == [0xa1, 0xb2, 0] && !Book::new(&[0, 0, 0, 1, 7]).waits(1));
}

#[test]
fn pattern(rt: HostRuntime) -> Result<(), Fail> {
    assert!(rt;
        Pattern::new(40, 40).is_err() && Pattern::new(0, 1).is_err() && Pattern::new(60, 0).is_err()
    );
    let gaps = Pattern::new(80, 79)?;
    assert!(rt; !gaps.covers(78) && gaps.covers(79) && gaps.covers(84) && !gaps.covers(85));
    assert!(rt;
        gaps.covers(0) && gaps.covers(4) && !gaps.covers(5) && !gaps.covers(0xffff_ffff_ffff_ffff)
    );
    Ok(())
}

// Msg3 lies in the last 645 bytes of packet memory, and a withdrawal leaves its bytes there.
#[test]
fn msg3(rt: HostRuntime) -> Result<(), Fail> {
    let mut cell = Cell::set_up(1, 3, 3, 0, 0)?;
    let mut memory = [1; 5805];
    assert_eq!(rt;
        cell.deposit(&mut memory[..5804], &[]).map_err(u8::from),
        Err(5)
    );
    assert_eq!(rt;
        cell.deposit(&mut [0; 5806], &[7]).map_err(u8::from),
        Err(5)
    );
    assert_eq!(rt; cell.deposit(&mut memory, &[]).map_err(u8::from), Err(13));
    assert_eq!(rt;
        cell.deposit(&mut memory, &[7; 646]).map_err(u8::from),
        Err(13)
    );
    assert_eq!(rt; cell.withdraw().map_err(u8::from), Err(15));
    assert!(rt; cell.deposit(&mut memory, &[7; 645]).is_ok());
    assert_eq!(rt; cell.deposit(&mut memory, &[8]).map_err(u8::from), Err(14));
    assert!(rt; memory[5159] == 1 && memory[5160] == 7 && memory[5804] == 7);
    assert!(rt; cell.withdraw().is_ok());
    assert_eq!(rt; cell.withdraw().map_err(u8::from), Err(15));
    assert!(rt; cell.deposit(&mut memory, &[8]).is_ok());
    assert!(rt; memory[5160] == 8 && memory[5161] == 7 && cell.clock() == 0);
    Ok(())
}
