// What comes to the cell over the air.
ghost use Rattle.std.specs.Prelude.{◌≡◌};
ghost use Rattle.shaft.specs.Coming.{c_rnti_grant, grant_coming, answer_coming};

use terms::grant::{Grant, GrantKind};
use terms::process::Feedback;

// A C-RNTI grant.
fn grant(ndi: u8, mcs: u8, size: u16) -> Grant
    ensures { result ≡ c_rnti_grant ndi mcs size }
{
    Grant {
        kind: GrantKind::CRnti as u8,
        ndi,
        mcs,
        version: 0,
        process: 0,
        repetitions: 1,
        resource: 7,
        size,
    }
}

// The grant that comes in a subframe, if one does.
pub(crate) fn grant_at(subframe: u64) -> Option<Grant>
    ensures { result ≡ grant_coming subframe }
{
    match subframe {
        // the packets of the book, with zeros up to the granted size
        0 => Some(grant(1, 5, 5)),
        1 => Some(grant(1, 5, 2)),
        // the book has ended
        2 => Some(grant(1, 5, 6)),
        // too small for a heartbeat
        3 => Some(grant(1, 5, 3)),
        // an adaptive retransmission in version 2
        10 => Some(grant(1, 30, 6)),
        // a new packet for the process that gave its packet up
        24 => Some(grant(0, 12, 12)),
        _ => None,
    }
}

// The answer that comes in a subframe, if one does.
pub(crate) fn answer_at(subframe: u64) -> Option<Feedback>
    ensures { result ≡ answer_coming subframe }
{
    match subframe {
        4 => Some(Feedback::Ack),
        5 | 6 => Some(Feedback::Nack),
        _ => None,
    }
}
