// A cell with what stands below it.
ghost use Rattle.std.specs.Prelude.{◌≡◌, ◌/◌, length, None};
ghost use Rattle.below.specs.Book.{left};
ghost use Rattle.cell.specs.Calls.{after_subframe};
ghost use Rattle.below.specs.Spans.{spans_cover};
ghost use Rattle.below.specs.Tape.{tape_radioed, said_in};
ghost use Rattle.terms.specs.Sendings.{told_of};
ghost use Rattle.shaft.specs.Sources.{shaft_offers, shaft_used};

use below::book::Book;
use below::heartbeat::Heartbeat;
use below::piled::Piled;
use below::spans::{Span, Spans};
use below::tape::Tape;
use cell::PACKET_MEMORY;
use cell::cell::Cell;
use terms::answer::{Refusal, Reply};
use terms::grant::Grant;
use terms::instruction::Instruction;
use terms::process::Feedback;
use terms::state::Tally;

#[derive(Drop)]
pub(crate) struct Ride<'a> {
    cell: Cell,
    memory: [u8; PACKET_MEMORY],
    radio: Tape<'a>,
    // a heartbeat under a book
    source: Piled<Book<'a>, Heartbeat>,
    gaps: Spans<'a>,
}

impl<'a> Ride<'a> {
    // A cell over a tape that has taken nothing, a book of which nothing is used over a unit's heartbeat, and spans.
    // The cell comes set up, and is not set up here: the check covers no Result of a struct that holds a `&mut` and a cell.
    pub(crate) fn new(
        cell: Cell,
        tape: &'a mut [u8],
        records: &'a [u8],
        unit: u32,
        gaps: &'a [Span],
    ) -> Ride<'a>
        ensures cell { result.cell ≡ cell }
        ensures radio { tape_radioed result.radio ≡ record { count = 0; latest = None; capacity = length tape.old / 661 } }
        ensures source { (left result.source.first ≡ records.now) × (result.source.second.unit ≡ unit) }
        ensures gaps { result.gaps.spans.now ≡ gaps.now }
    {
        Ride {
            cell,
            memory: [0; PACKET_MEMORY],
            radio: Tape::new(tape),
            source: Piled::new(Book::new(records), Heartbeat::new(unit)),
            gaps: Spans::new(gaps),
        }
    }

    // One subframe: the cell's rule over the meanings of these kinds.
    pub(crate) fn pass(
        &mut self,
        answer: Option<Feedback>,
        grant: Option<Grant>,
    ) -> Result<Reply, Refusal>
        ensures { record { answer = result; state = self.new.cell.state; memory = self.new.memory; radio = tape_radioed self.new.radio; source = self.new.source } ≡ after_subframe shaft_offers shaft_used self.old.cell.setup self.old.cell.state self.old.memory (tape_radioed self.old.radio) self.old.source (spans_cover self.old.gaps.spans.now self.old.cell.state.clock) answer grant }
    {
        self.cell.subframe(
            &mut self.memory,
            &mut self.radio,
            &mut self.source,
            &self.gaps,
            answer,
            grant,
        )
    }

    // How many sendings stand on the tape.
    pub(crate) fn taken(&self) -> usize
        ensures { result ≡ (tape_radioed self.now.radio).count }
    {
        self.radio.count()
    }

    // The sending in slot k of the tape, if that was filled.
    pub(crate) fn sending(&self, k: usize) -> Option<Instruction<'_>>
        ensures { told_of result ≡ said_in self.now.radio.bytes.now (tape_radioed self.now.radio).count k }
    {
        self.radio.instruction(k)
    }

    // The latest sending, if there was one.
    pub(crate) fn latest(&self) -> Option<Instruction<'_>>
        ensures { told_of result ≡ (tape_radioed self.now.radio).latest }
    {
        let last = self.taken().checked_sub(1)?;
        self.sending(last)
    }

    // The subframe that comes next.
    pub(crate) fn clock(&self) -> u64
        ensures { result ≡ self.now.cell.state.clock }
    {
        self.cell.clock()
    }

    // Packets begun and sendings made.
    pub(crate) fn tally(&self) -> Tally
        ensures { result ≡ self.now.cell.state.tally }
    {
        self.cell.tally()
    }
}
