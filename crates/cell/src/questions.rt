// The questions that set-up, a Msg3 deposit and a withdrawal ask in their order, and those of the fields of a grant.
ghost use Rattle.std.specs.Prelude.{◌≡◌, ◌==◌, ◌||◌};
ghost use Rattle.rules.specs.Setup.{first_no, set_up_questions};
ghost use Rattle.rules.specs.Msg3.{deposit_questions, withdrawal_questions};
ghost use Rattle.rules.specs.Questions.{kind_allowed, fields_by_kind, fields_hold};

use terms::answer::Refusal;
use terms::grant::{Grant, GrantKind};
use terms::instruction::is_packet_size;
use terms::setup::{CellKind, Setup};

// No subframe from this one on is worked.
pub(crate) const CLOCK_END: u64 = 1 << 48;

fn is_kind_allowed(setup: Setup, g: Grant) -> bool
    ensures { result ≡ kind_allowed setup g }
{
    match GrantKind::try_from(g.kind) {
        Ok(GrantKind::CRnti) => true,
        Ok(GrantKind::SpsCRnti | GrantKind::SpsRelease) => setup.interval > 0,
        Ok(GrantKind::TemporaryCRnti | GrantKind::RandomAccessResponse) => {
            setup.kind != CellKind::Bundled
        }
        Err(_) => false,
    }
}

// Whether a grant belongs to a random access, which names no process.
fn is_random_access(g: Grant) -> bool
    ensures { result ≡ (g.kind == 1 || g.kind == 4) }
{
    matches!(
        GrantKind::try_from(g.kind),
        Ok(GrantKind::TemporaryCRnti | GrantKind::RandomAccessResponse)
    )
}

fn do_fields_go(kind: CellKind, g: Grant) -> bool
    ensures { result ≡ fields_by_kind kind g }
{
    match kind {
        CellKind::Plain | CellKind::Bundled => g.mcs <= 31
            && g.version == 0
            && g.process == 0
            && g.repetitions == 1,
        CellKind::Asynchronous => {
            g.mcs <= 28
                && g.version <= 3
                && g.process <= 7
                && (g.process == 0 || !is_random_access(g))
                && (1..=32).contains(&g.repetitions)
        }
    }
}

pub(crate) fn do_fields_hold(setup: Setup, g: Grant) -> bool
    ensures { result ≡ fields_hold setup g }
{
    is_kind_allowed(setup, g)
        && g.ndi <= 1
        && is_packet_size(usize::from(g.size))
        && do_fields_go(setup.kind, g)
}

// The questions of set-up after its first, which asks for the kind.
pub(crate) fn ask_of_setup(setup: Setup) -> Result<(), Refusal>
    ensures { result ≡ first_no (set_up_questions setup) }
{
    if !(1..=28).contains(&setup.max_harq_tx) || !(1..=8).contains(&setup.max_harq_msg3_tx) {
        return Err(Refusal::Maximum);
    }
    if setup.interval != 0 && (setup.interval > 640 || setup.kind != CellKind::Plain) {
        return Err(Refusal::Interval);
    }
    if setup.start >= CLOCK_END {
        return Err(Refusal::Start);
    }
    Ok(())
}

// The questions of a Msg3 deposit after its first, which asks for packet memory: the length of the packet, and what the Msg3 buffer holds.
pub(crate) fn ask_of_deposit(packet: usize, msg3: Option<u16>) -> Result<(), Refusal>
    ensures { result ≡ first_no (deposit_questions 5805 packet msg3) }
{
    if !is_packet_size(packet) {
        return Err(Refusal::PacketLength);
    }
    if msg3.is_some() {
        return Err(Refusal::Msg3Held);
    }
    Ok(())
}

// The question of a Msg3 withdrawal.
pub(crate) fn ask_of_withdrawal(msg3: Option<u16>) -> Result<(), Refusal>
    ensures { result ≡ first_no (withdrawal_questions msg3) }
{
    if msg3.is_none() {
        return Err(Refusal::Msg3Empty);
    }
    Ok(())
}
