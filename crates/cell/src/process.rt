// What a HARQ process is at set-up, and what an answer or a grant makes of its variables (TS 36.321, 5.4.2.2).
ghost use Rattle.std.specs.Prelude.{◌≡◌};
ghost use Rattle.rules.specs.Process.{synchronous, hears, granted_version, first_index, reference_set};

use terms::grant::{GrantInForce, Reception};
use terms::process::{Feedback, Process};
use terms::setup::CellKind;
use terms::version::{Irv, RedundancyVersion};

// A process at set-up.
pub(crate) const IDLE: Process = Process {
    buffer: None,
    from_msg3: false,
    current_tx_nb: 0,
    harq_feedback: Feedback::Nack,
    current_irv: Irv(0),
    mcs: 0,
    resource: 0,
    reference_ndi: None,
    awaits_answer: false,
};

pub(crate) fn is_synchronous(kind: CellKind) -> bool
    ensures { result ≡ synchronous kind }
{
    kind != CellKind::Asynchronous
}

// The subframe of its answers: a gap counts as ACK, unless the packet is from Msg3.
pub(crate) fn hear(p: Process, gap: bool, answer: Option<Feedback>) -> Process
    ensures { result ≡ hears gap answer p }
{
    if !p.awaits_answer {
        return p;
    }
    let harq_feedback = if !gap {
        answer.unwrap_or(p.harq_feedback)
    } else if p.from_msg3 {
        p.harq_feedback
    } else {
        Feedback::Ack
    };
    Process {
        harq_feedback,
        awaits_answer: false,
        ..p
    }
}

pub(crate) fn version_granted(kind: CellKind, g: GrantInForce) -> RedundancyVersion
    ensures { result ≡ granted_version kind g }
{
    match kind {
        CellKind::Plain | CellKind::Bundled => RedundancyVersion(g.mcs.saturating_sub(28)),
        CellKind::Asynchronous => g.version,
    }
}

pub(crate) fn index_at_first(kind: CellKind, g: GrantInForce) -> Irv
    ensures { result ≡ first_index kind g }
{
    match kind {
        CellKind::Plain | CellKind::Bundled => Irv(0),
        CellKind::Asynchronous => Irv::from(g.version),
    }
}

// The reference NDI once a grant is followed.
pub(crate) fn reference_followed(reception: Reception, reference: Option<u8>) -> Option<u8>
    ensures { result ≡ reference_set reception reference }
{
    match reception {
        Reception::CRnti(ndi) => Some(ndi),
        _ => reference,
    }
}
