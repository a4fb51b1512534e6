// From a decision to the reply: the packet, the transmission, and what the cell keeps of them.
// The stages take the parts of the state that they need and no Cell: between them its parts need not fit together, which a Cell keeps.
ghost use Rattle.std.specs.Prelude.{◌≡◌, ◌≤◌};
ghost use Rattle.std.specs.Option.{unwrap_or};
ghost use Rattle.ports.specs.Radio.{told};
ghost use Rattle.ports.specs.Source.{FitsAsked, source_after};
ghost use Rattle.rules.specs.Entity.{course, asked, work_of, memory_after};
ghost use Rattle.rules.specs.Subframe.{outcome_of, attempted, concluded, sending, sending_if, sending_by, repetition_by, repetition_after, finished, heard};
ghost use Rattle.rules.specs.Process.{on_air};
ghost use Rattle.rules.specs.Invariant.{Sane, Obtains, Loaded, LoadedWork};

use crate::PACKET_MEMORY;
use crate::entity::{fetch, identify_answered};
use crate::harq_process::HarqProcess;
use crate::process::hear;
use crate::roomy::Roomy;
use crate::tti::Tti;
use ports::radio::Radio;
use ports::source::Source;
use terms::answer::{Outcome, Reply};
use terms::decision::{Conclusion, Decision, Work};
use terms::grant::GrantInForce;
use terms::process::{Feedback, Process};
use terms::setup::{CellKind, Setup};
use terms::state::{Repetition, State};
use terms::version::RedundancyVersion;

// The process whose answers fall in this subframe hears the answer, or the gap.
pub(crate) fn take_answer(setup: Setup, state: &mut State, gap: bool, answer: Option<Feedback>)
    ensures { state.new ≡ heard setup state.old gap answer }
{
    if let Some(k) = identify_answered(setup.kind, state.clock) {
        state.processes[usize::from(k)] = hear(fetch(&state.processes, k), gap, answer);
    }
}

// A transmission that a process is about to make. Two marks and no enum of the three cases, since each rule asks for one of them.
#[derive(Clone, Copy)]
pub(crate) struct Transmission {
    pub(crate) process: Process,
    // the first of its packet
    new: bool,
    // an ACK keeps it off the air
    pub(crate) acked: bool,
}

impl Transmission {
    // A measurement gap keeps it off the air too, unless its packet is from Msg3.
    pub(crate) fn goes_on_air(self, gap: bool) -> bool
        ensures { result ≡ on_air self.acked gap self.process }
    {
        !self.acked && (!gap || self.process.from_msg3)
    }

    fn outcome(self, sent: bool) -> Outcome
        ensures { result ≡ outcome_of self.acked sent }
    {
        match (self.acked, sent) {
            (true, _) => Outcome::Acknowledged,
            (false, true) => Outcome::Sent,
            (false, false) => Outcome::Gap,
        }
    }
}

impl Tti {
    // Carries a decision out, up to the sending: a new transmission first obtains its packet.
    pub(crate) fn begin<S: Source>(
        self,
        memory: &mut [u8; PACKET_MEMORY],
        source: &mut S,
        msg3: Option<u16>,
        p: HarqProcess,
        decision: Decision,
    ) -> Work
        requires sane { Sane p.process decision }
        requires bound { (1 ≤ unwrap_or msg3 1) × (unwrap_or msg3 1 ≤ 645) }
        ensures obtains { Obtains decision msg3 memory.old (S.offers source.old) }
        ensures fits { FitsAsked (S.offers source.old) (asked decision msg3) }
        ensures work { result ≡ work_of (course p.setup decision msg3 memory.old (S.offers source.old) p.process) }
        ensures memory { memory.new ≡ memory_after memory.old self.process (course p.setup decision msg3 memory.old (S.offers source.old) p.process) }
        ensures source { source.new ≡ source_after S.offers S.used source.old (asked decision msg3) }
    {
        match decision {
            Decision::Rest(outcome) => Work::Rest(outcome, p.process),
            Decision::New(g) => match self.stretch().obtain(memory, source, msg3, g) {
                Some(packet) => Work::New(p.renew(g, packet)),
                None => Work::Rest(Outcome::NoPacket, p.process),
            },
            Decision::Adaptive(g) => Work::Again(p.adapt(g), false),
            Decision::NonAdaptive => {
                Work::Again(p.repeat(), p.process.harq_feedback == Feedback::Ack)
            }
        }
    }

    // A transmission goes on the air, if nothing keeps it back, and counts against the maximum either way.
    fn attempt<R: Radio>(
        self,
        memory: &[u8; PACKET_MEMORY],
        roomy: Roomy<'_, R>,
        t: Transmission,
    ) -> Conclusion
        requires { Loaded self.setup t.process }
        ensures conclusion { result ≡ attempted self.setup self.process self.gap t.new t.acked t.process }
        ensures radio { R.radioed roomy.exit.0.now ≡ told (R.radioed roomy.entry.radio.now) (sending_if (on_air t.acked self.gap t.process) (sending_by self.clock self.process memory.now t.process)) }
        ensures lender { R.lender roomy.exit.0.now ≡ R.lender roomy.entry.radio.now }
    {
        let p = HarqProcess {
            setup: self.setup,
            process: t.process,
        };
        let sent = self.send(memory, roomy, t);
        Conclusion {
            process: p.transmit(sent),
            reply: Reply {
                outcome: t.outcome(sent),
                process: self.process,
                version: if sent {
                    RedundancyVersion::from(t.process.current_irv)
                } else {
                    RedundancyVersion(0)
                },
                given_up: p.is_last(),
            },
            begun: t.new,
            sent,
        }
    }

    // Does the work of a subframe.
    pub(crate) fn conclude<R: Radio>(
        self,
        memory: &[u8; PACKET_MEMORY],
        roomy: Roomy<'_, R>,
        work: Work,
    ) -> Conclusion
        requires { LoadedWork self.setup work }
        ensures conclusion { result ≡ concluded self.setup self.process self.gap work }
        ensures radio { R.radioed roomy.exit.0.now ≡ told (R.radioed roomy.entry.radio.now) (sending self.clock self.process memory.now self.gap work) }
        ensures lender { R.lender roomy.exit.0.now ≡ R.lender roomy.entry.radio.now }
    {
        let t = match work {
            Work::Rest(outcome, process) => return Conclusion {
                process,
                reply: Reply {
                    outcome,
                    process: self.process,
                    version: RedundancyVersion(0),
                    given_up: false,
                },
                begun: false,
                sent: false,
            },
            Work::New(process) => Transmission {
                process,
                new: true,
                acked: false,
            },
            Work::Again(process, acked) => Transmission {
                process,
                new: false,
                acked,
            },
        };
        self.attempt(memory, roomy, t)
    }

    // A grant that an asynchronous process follows makes its repetitions run.
    fn start_repetition(
        self,
        g: Option<GrantInForce>,
        repetition: Option<Repetition>,
    ) -> Option<Repetition>
        ensures { result ≡ repetition_by self.setup.kind self.clock g repetition }
    {
        match (self.setup.kind, g) {
            (CellKind::Asynchronous, Some(g)) => Some(Repetition {
                process: g.process,
                until: self.clock + u64::from(g.repetitions),
            }),
            _ => repetition,
        }
    }

    pub(crate) fn rerun(
        self,
        g: Option<GrantInForce>,
        work: Work,
        repetition: Option<Repetition>,
    ) -> Option<Repetition>
        ensures { result ≡ repetition_after self.setup.kind self.clock g work repetition }
    {
        match work {
            Work::Rest(_, _) => repetition,
            Work::New(_) | Work::Again(_, _) => self.start_repetition(g, repetition),
        }
    }

    // The end of a subframe.
    pub(crate) fn finish(
        self,
        state: &mut State,
        repetition: Option<Repetition>,
        conclusion: Conclusion,
    )
        requires { (state.old.clock ≡ self.clock) × ((state.old.tally.packets ≤ self.clock) × (state.old.tally.sendings ≤ self.clock)) }
        ensures { state.new ≡ finished state.old self.process repetition conclusion }
    {
        state.processes[usize::from(self.process)] = conclusion.process;
        state.repetition = repetition;
        state.tally.packets += u64::from(conclusion.begun);
        state.tally.sendings += u64::from(conclusion.sent);
        state.clock += 1;
    }
}
