// What a line of a trace does.
ghost use Rattle.std.specs.Prelude.{◌≡◌, ℕ, List, ◌∷◌, ◌++◌, IfOk, OnOk};
ghost use Rattle.cell.specs.Calls.{after_deposit, after_withdrawal};
ghost use Rattle.hexadecimal.specs.Hex.{decoded};
ghost use Rattle.frames.specs.Frames.{reads};
ghost use Rattle.trace.specs.Standing.{admitted, equipped, called, after_filing, answered};
ghost use Rattle.trace.specs.Answers.{text_of, Begun};
ghost use Rattle.trace.specs.declared.session.Accepted.TheVariants.{Deposited, Withdrawn};
ghost use Rattle.trace.specs.Sessions.{equipment_in, FreshIn, opened, standing_of, standing_in, answers_to};

use crate::session::{Accepted, Answer, Equipped, Session, Trace};
use crate::text::{answer_onto, refusal_onto, setup_onto};
use below::book::Book;
use below::mailbox::Mailbox;
use below::pattern::Pattern;
use cell::PACKET_MEMORY;
use cell::cell::Cell;
use frames::frame::{Frame, SetupFrame};
use frames::read::read;
use hexadecimal::decode_onto;
use std::alloc::{AllocError, Global};
use terms::answer::Refusal;
use terms::grant::Grant;
use terms::process::Feedback;

// A cell and its gaps, or the first refusal of the two.
fn admit(f: SetupFrame) -> Result<Equipped, Refusal>
    ensures equipment { equipment_in result ≡ admitted f }
    ensures fresh { FreshIn result }
{
    let cell = Cell::set_up(
        f.kind,
        f.max_harq_tx,
        f.max_harq_msg3_tx,
        f.interval,
        f.start,
    )?;
    let gaps = Pattern::new(f.period, f.offset)?;
    Ok(Equipped { cell, gaps })
}

// What a line sets up before anything is set up.
fn equip(line: &[u8]) -> Result<Equipped, Refusal>
    ensures equipment { equipment_in result ≡ equipped (reads line.now) }
    ensures fresh { FreshIn result }
{
    match read(line)? {
        Frame::Setup(f) => admit(f),
        _ => Err(Refusal::NotFrame),
    }
}

impl<'a> Session<'a> {
    // After an accepted set-up.
    fn new(equipped: Equipped, records: &'a [u8]) -> Session<'a>
        ensures { standing_of result ≡ opened equipped records.now }
    {
        let Equipped { cell, gaps } = equipped;
        Session {
            cell,
            gaps,
            memory: [0; PACKET_MEMORY],
            radio: Mailbox::new(),
            book: Book::new(records),
        }
    }

    fn subframe(&mut self, answer: Option<Feedback>, grant: Option<Grant>) -> Answer
        ensures { record { answer = result; standing = standing_of self.new } ≡ called (standing_of self.old) answer grant }
    {
        self.cell
            .subframe(
                &mut self.memory,
                &mut self.radio,
                &mut self.book,
                &self.gaps,
                answer,
                grant,
            )
            .map(Accepted::Replied)
    }

    // A packet for the Msg3 buffer, by its digits.
    fn deposit(&mut self, heap: Global, digits: &[u8]) -> Result<Answer, AllocError>
        ensures { IfOk result (λ v. record { answer = v; standing = standing_of self.new } ≡ after_filing (standing_of self.old) Deposited (after_deposit (standing_of self.old).state (standing_of self.old).memory (decoded digits.now))) }
    {
        let mut packet = Vec::new(heap);
        decode_onto(&mut packet, digits)?;
        let done = self.cell.deposit(&mut self.memory, packet.as_slice());
        Ok(done.map(|()| Accepted::Deposited))
    }

    fn withdraw(&mut self) -> Answer
        ensures { record { answer = result; standing = standing_of self.new } ≡ after_filing (standing_of self.old) Withdrawn (after_withdrawal (standing_of self.old).state (standing_of self.old).memory) }
    {
        self.cell.withdraw().map(|()| Accepted::Withdrawn)
    }

    // Works a line. A refusal is an answer, and want of memory ends the trace: two errors, one inside the other.
    fn work(&mut self, heap: Global, line: &[u8]) -> Result<Answer, AllocError>
        ensures { IfOk result (λ v. record { answer = v; standing = standing_of self.new } ≡ answered (standing_of self.old) (reads line.now)) }
    {
        match read(line) {
            Ok(Frame::Subframe { answer, grant }) => Ok(self.subframe(answer, grant)),
            Ok(Frame::Deposit(digits)) => self.deposit(heap, digits),
            Ok(Frame::Withdrawal) => Ok(self.withdraw()),
            Ok(Frame::Packet(_)) => Ok(Ok(Accepted::Packet)),
            Ok(Frame::Setup(_)) => Ok(Err(Refusal::NotFrame)),
            Err(refusal) => Ok(Err(refusal)),
        }
    }

    // Works a line, and appends the text of its answer.
    fn answer_line(
        &mut self,
        heap: Global,
        line: &[u8],
        out: &mut Vec<u8>,
    ) -> Result<(), AllocError>
        ensures session { OnOk result (standing_of self.new ≡ (answered (standing_of self.old) (reads line.now)).standing) }
        ensures text { OnOk result (out.new.items ≡ out.old.items ++ text_of (answered (standing_of self.old) (reads line.now))) }
    {
        let answer = self.work(heap, line)?;
        answer_onto(out, answer, self.radio.latest())?;
        Ok(())
    }
}

impl Trace<'_> {
    // Answers a line before the set-up, which begins the session if it sets up a cell.
    fn begin(&mut self, line: &[u8], out: &mut Vec<u8>) -> Result<(), AllocError>
        ensures records { self.new.records.now ≡ self.old.records.now }
        ensures begun { OnOk result (Begun (equipped (reads line.now)) self.old.records.now (standing_in self.new.session) (standing_in self.old.session) out.old.items out.new.items) }
    {
        match equip(line) {
            Ok(equipped) => {
                self.session = Some(Session::new(equipped, self.records));
                setup_onto(out)
            }
            Err(refusal) => refusal_onto(out, refusal),
        }
    }

    // Appends the answer to a line.
    pub(crate) fn answer_line(
        &mut self,
        heap: Global,
        line: &[u8],
        out: &mut Vec<u8>,
    ) -> Result<(), AllocError>
        ensures { OnOk result ((later : List (List ℕ)) → out.old.items ++ answers_to self.old (line.now ∷ later) ≡ out.new.items ++ answers_to self.new later) }
    {
        match &mut self.session {
            Some(session) => session.answer_line(heap, line, out),
            None => self.begin(line, out),
        }
    }
}
