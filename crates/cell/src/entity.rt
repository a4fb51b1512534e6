// The HARQ entity (TS 36.321, 5.4.2.1).
ghost use Rattle.std.specs.Prelude.{◌≡◌};
ghost use Rattle.rules.specs.Entity.{process_at, repeating, process_of, answering, wants_new, spares, decided};

use crate::harq_process::HarqProcess;
use crate::process::IDLE;
use terms::answer::Outcome;
use terms::decision::Decision;
use terms::grant::{GrantInForce, Reception};
use terms::process::{Feedback, Process};
use terms::setup::CellKind;
use terms::state::Repetition;

// The process of a number; past the last, one that is as at set-up: so the function is total, and no rule has to show that its number is below 8.
pub(crate) fn fetch(processes: &[Process; 8], k: u8) -> Process
    ensures { result ≡ process_at processes.now k }
{
    processes.get(usize::from(k)).copied().unwrap_or(IDLE)
}

// The process whose repetitions run.
pub(crate) fn running(clock: u64, repetition: Option<Repetition>) -> Option<u8>
    ensures { result ≡ repeating clock repetition }
{
    repetition.filter(|r| clock < r.until).map(|r| r.process)
}

// The process of a subframe.
pub(crate) fn identify(
    kind: CellKind,
    clock: u64,
    g: Option<GrantInForce>,
    repetition: Option<Repetition>,
) -> Option<u8>
    ensures { result ≡ process_of kind clock g repetition }
{
    match kind {
        CellKind::Plain => Some((clock % 8) as u8),
        CellKind::Bundled => Some((clock % 16 / 4) as u8),
        CellKind::Asynchronous => match g {
            Some(g) => Some(g.process),
            None => running(clock, repetition),
        },
    }
}

// The process whose answer falls in a subframe.
pub(crate) fn identify_answered(kind: CellKind, clock: u64) -> Option<u8>
    ensures { result ≡ answering kind clock }
{
    let sent = clock.checked_sub(4)?;
    match kind {
        CellKind::Plain => Some((sent % 8) as u8),
        CellKind::Bundled if clock % 4 == 3 => Some((sent % 16 / 4) as u8),
        CellKind::Bundled | CellKind::Asynchronous => None,
    }
}

pub(crate) fn is_new(reception: Reception, p: Process) -> bool
    ensures { result ≡ wants_new reception p }
{
    match reception {
        Reception::CRnti(ndi) => p.buffer.is_none() || p.reference_ndi != Some(ndi),
        Reception::TemporaryCRnti | Reception::SpsRetransmission => false,
        Reception::Configured | Reception::RandomAccessResponse => true,
    }
}

impl HarqProcess {
    // Whether a configured grant leaves a packet that is not acknowledged in its place.
    fn is_spared(self, reception: Reception) -> bool
        ensures { result ≡ spares self.setup reception self.process }
    {
        matches!(reception, Reception::Configured)
            && self.setup.interval < 10
            && self.process.buffer.is_some()
            && self.process.harq_feedback != Feedback::Ack
    }

    // What the process of a subframe is instructed to do.
    pub(crate) fn decide(self, g: Option<GrantInForce>) -> Decision
        ensures { result ≡ decided self.setup g self.process }
    {
        let held = self.process.buffer.is_some();
        match g {
            None if held => Decision::NonAdaptive,
            None => Decision::Rest(Outcome::Idle),
            Some(g) if is_new(g.reception, self.process) => {
                if self.is_spared(g.reception) {
                    Decision::NonAdaptive
                } else {
                    Decision::New(g)
                }
            }
            Some(g) if held => Decision::Adaptive(g),
            Some(_) => Decision::Rest(Outcome::EmptyBuffer),
        }
    }
}
