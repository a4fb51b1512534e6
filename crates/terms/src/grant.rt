// Uplink grants: as they come, as they are in force, and as they are stored.
ghost use Rattle.std.specs.Prelude.{◌≡◌, ◌<◌, MatchResult};
ghost use Rattle.terms.specs.declared.answer.Refusal.{Refusal};
ghost use Rattle.terms.specs.Numbers.{grant_kind_number};

use crate::answer::Refusal;
use crate::version::RedundancyVersion;

// What a grant over the air is for.
#[derive(Clone, Copy, PartialEq, Eq, Debug)]
pub enum GrantKind {
    CRnti,
    TemporaryCRnti,
    SpsCRnti,
    SpsRelease,
    RandomAccessResponse,
}

// The kind of a number from 0 to 4.
impl TryFrom<u8> for GrantKind {
    type Error = Refusal;

    ghost try_from_gives = { λ number kind. MatchResult kind (λ k. number ≡ grant_kind_number k) (λ e. (4 < number) × (e ≡ Refusal.GrantFields)) };

    fn try_from(number: u8) -> Result<GrantKind, Refusal> {
        match number {
            0 => Ok(GrantKind::CRnti),
            1 => Ok(GrantKind::TemporaryCRnti),
            2 => Ok(GrantKind::SpsCRnti),
            3 => Ok(GrantKind::SpsRelease),
            4 => Ok(GrantKind::RandomAccessResponse),
            _ => Err(Refusal::GrantFields),
        }
    }
}

// A grant as it comes over the air; any value can stand in any field.
#[derive(Clone, Copy)]
pub struct Grant {
    // the number of a GrantKind; no GrantKind, since a call takes every number and refuses those of none
    pub kind: u8,
    pub ndi: u8,
    pub mcs: u8,
    pub version: u8,
    pub process: u8,
    pub repetitions: u8,
    pub resource: u16,
    // bytes of a packet
    pub size: u16,
}

// How a grant in force came.
#[derive(Clone, Copy)]
pub enum Reception {
    // on PDCCH for the C-RNTI, with this NDI
    CRnti(u8),
    // on PDCCH for the Temporary C-RNTI
    TemporaryCRnti,
    // on PDCCH for the SPS C-RNTI with NDI 1
    SpsRetransmission,
    // a configured grant, in the subframe of its activation or in a later one of its interval
    Configured,
    // in a Random Access Response
    RandomAccessResponse,
}

// The grant that counts in a subframe. It holds no Grant: what came over the air as numbers of any value is here of a kind, in a version.
#[derive(Clone, Copy)]
pub struct GrantInForce {
    pub reception: Reception,
    pub mcs: u8,
    pub version: RedundancyVersion,
    pub process: u8,
    pub repetitions: u8,
    pub resource: u16,
    pub size: u16,
}

// The stored configured grant, and the subframe of its activation.
#[derive(Clone, Copy)]
pub struct ConfiguredGrant {
    pub since: u64,
    pub mcs: u8,
    pub resource: u16,
    pub size: u16,
}
