// UL grant reception (TS 36.321, 5.4.1). Each rule takes the parts of a cell that it may depend on, and reads a kind from its number, since a grant that the questions let pass is one of numbers still.
ghost use Rattle.std.specs.Prelude.{◌≡◌};
ghost use Rattle.rules.specs.Reception.{reception_of, over_the_air, recurring, recurs, stored_in_force, grant_in_force, stored_after, referred};

use terms::grant::{ConfiguredGrant, Grant, GrantInForce, GrantKind, Reception};
use terms::process::Process;
use terms::setup::Setup;
use terms::version::RedundancyVersion;

fn reception(g: Grant) -> Option<Reception>
    ensures { result ≡ reception_of g }
{
    match GrantKind::try_from(g.kind) {
        Ok(GrantKind::CRnti) => Some(Reception::CRnti(g.ndi)),
        Ok(GrantKind::TemporaryCRnti) => Some(Reception::TemporaryCRnti),
        Ok(GrantKind::SpsCRnti) if g.ndi == 0 => Some(Reception::Configured),
        Ok(GrantKind::SpsCRnti) => Some(Reception::SpsRetransmission),
        Ok(GrantKind::RandomAccessResponse) => Some(Reception::RandomAccessResponse),
        Ok(GrantKind::SpsRelease) | Err(_) => None,
    }
}

// A grant over the air, as it is in force; no TryFrom, since the rule has its place here and both types lie in the crate below.
pub(crate) fn enforce(g: Grant) -> Option<GrantInForce>
    ensures { result ≡ over_the_air g }
{
    Some(GrantInForce {
        reception: reception(g)?,
        mcs: g.mcs,
        version: RedundancyVersion(g.version),
        process: g.process,
        repetitions: g.repetitions,
        resource: g.resource,
        size: g.size,
    })
}

// The stored grant, as it is in force; no From, for the same reason.
fn recur(c: ConfiguredGrant) -> GrantInForce
    ensures { result ≡ recurring c }
{
    GrantInForce {
        reception: Reception::Configured,
        mcs: c.mcs,
        version: RedundancyVersion(0),
        process: 0,
        repetitions: 1,
        resource: c.resource,
        size: c.size,
    }
}

fn is_due(setup: Setup, clock: u64, c: ConfiguredGrant) -> bool
    ensures { result ≡ recurs setup clock c }
{
    setup.interval > 0 && c.since < clock && (clock - c.since) % u64::from(setup.interval) == 0
}

fn recall(setup: Setup, clock: u64, configured: Option<ConfiguredGrant>) -> Option<GrantInForce>
    ensures { result ≡ stored_in_force setup clock configured }
{
    configured.filter(|c| is_due(setup, clock, *c)).map(recur)
}

// The grant in force: one over the air takes the place of the stored one.
pub(crate) fn force(
    setup: Setup,
    clock: u64,
    configured: Option<ConfiguredGrant>,
    grant: Option<Grant>,
) -> Option<GrantInForce>
    ensures { result ≡ grant_in_force setup clock configured grant }
{
    match grant {
        Some(g) => enforce(g),
        None => recall(setup, clock, configured),
    }
}

// What is stored after a subframe.
pub(crate) fn store(
    clock: u64,
    configured: Option<ConfiguredGrant>,
    grant: Option<Grant>,
) -> Option<ConfiguredGrant>
    ensures { result ≡ stored_after clock configured grant }
{
    let Some(g) = grant else {
        return configured;
    };
    match GrantKind::try_from(g.kind) {
        Ok(GrantKind::SpsCRnti) if g.ndi == 0 => Some(ConfiguredGrant {
            since: clock,
            mcs: g.mcs,
            resource: g.resource,
            size: g.size,
        }),
        Ok(GrantKind::SpsRelease) => None,
        _ => configured,
    }
}

// What the grant in force makes of the reference NDI.
pub(crate) fn refer(g: Option<GrantInForce>, p: Process) -> Process
    ensures { result ≡ referred g p }
{
    let Some(g) = g else {
        return p;
    };
    match g.reception {
        Reception::CRnti(_) | Reception::TemporaryCRnti => p,
        Reception::SpsRetransmission | Reception::Configured | Reception::RandomAccessResponse =>
            Process {
                reference_ndi: None,
                ..p
            },
    }
}
