ghost use Rattle.std.specs.Prelude.{◌≡◌, ℕ, List};
ghost use Rattle.rules.specs.Setup.{set_up};
ghost use Rattle.runs.specs.Runs.{deposit_call, withdrawal_call};
ghost use Rattle.runs.specs.Promise.{KeepsPromise};
ghost use Rattle.cell.specs.Calls.{after_subframe, after_deposit, after_withdrawal};
ghost use Rattle.cell.specs.Promises.{world, brought_over, subframe_over, latest_after, ByTheStandard};
ghost use Rattle.cell.specs.Cells.{parts, with_fresh_state};

use crate::PACKET_MEMORY;
use crate::cell::Cell;
use crate::entity::identify;
use crate::process::IDLE;
use crate::questions::{ask_of_deposit, ask_of_setup, ask_of_withdrawal};
use crate::reception::{force, store};
use crate::roomy::Roomy;
use crate::stretch::Stretch;
use crate::tti::Tti;
use crate::work::take_answer;
use ports::gap_plan::GapPlan;
use ports::radio::Radio;
use ports::source::Source;
use terms::answer::{Outcome, Refusal, Reply};
use terms::grant::Grant;
use terms::process::Feedback;
use terms::setup::{CellKind, Setup};
use terms::state::{State, Tally};
use terms::version::RedundancyVersion;

// The reply of a subframe that has no process.
const NO_PROCESS: Reply = Reply {
    outcome: Outcome::Idle,
    process: 8,
    version: RedundancyVersion(0),
    given_up: false,
};

impl Cell {
    // Sets a cell up, or refuses by the first question that is answered no. It takes every number for the kind, since a CellKind would ask more of callers.
    pub fn set_up(
        kind: u8,
        max_harq_tx: u8,
        max_harq_msg3_tx: u8,
        interval: u16,
        start: u64,
    ) -> Result<Cell, Refusal>
        ensures { parts result ≡ with_fresh_state (set_up kind max_harq_tx max_harq_msg3_tx interval start) }
    {
        let setup = Setup {
            kind: CellKind::try_from(kind)?,
            max_harq_tx,
            max_harq_msg3_tx,
            interval,
            start,
        };
        ask_of_setup(setup)?;
        let state = State {
            processes: [IDLE; 8],
            configured: None,
            repetition: None,
            msg3: None,
            tally: Tally {
                packets: 0,
                sendings: 0,
            },
            clock: start,
        };
        Ok(Cell { setup, state })
    }

    // The subframe that comes next: an answer and a grant, if they came, over the radio, the source and the gap plan that stand below.
    // Answer and grant come apart here and below, since one may come without the other.
    pub fn subframe<R: Radio, S: Source, G: GapPlan>(
        &mut self,
        memory: &mut [u8],
        radio: &mut R,
        source: &mut S,
        gaps: &G,
        answer: Option<Feedback>,
        grant: Option<Grant>,
    ) -> Result<Reply, Refusal>
        ensures whole { record { answer = result; state = self.new.state; memory = memory.new; radio = R.radioed radio.new; source = source.new } ≡ after_subframe S.offers S.used self.old.setup self.old.state memory.old (R.radioed radio.old) source.old (G.covered gaps.now self.old.state.clock) answer grant }
        ensures setup { self.new.setup ≡ self.old.setup }
        ensures promise { KeepsPromise self.old.setup (world self.old.state memory.old (R.radioed radio.old).count) (subframe_over answer grant (G.covered gaps.now) (S.offers source.old) (R.radioed radio.old)) (world self.new.state memory.new (R.radioed radio.new).count) }
        ensures latest { (R.radioed radio.new).latest ≡ latest_after self.old.setup (world self.old.state memory.old (R.radioed radio.old).count) (subframe_over answer grant (G.covered gaps.now) (S.offers source.old) (R.radioed radio.old)) (R.radioed radio.old).latest }
        ensures standard { ByTheStandard self.old.setup (world self.old.state memory.old (R.radioed radio.old).count) (brought_over answer grant (G.covered gaps.now) (S.offers source.old) (R.radioed radio.old)) result (R.radioed radio.old) (R.radioed radio.new) }
        ensures lender { R.lender radio.new ≡ R.lender radio.old }
    {
        let memory = memory
            .as_mut_array::<PACKET_MEMORY>()
            .ok_or(Refusal::PacketMemory)?;
        let clock = self.state.clock;
        let gap = gaps.covers(clock);
        self.ask(radio.ready(), gap, answer, grant)?;
        take_answer(self.setup, &mut self.state, gap, answer);
        let g = force(self.setup, clock, self.state.configured, grant);
        self.state.configured = store(clock, self.state.configured, grant);
        let Some(process) = identify(self.setup.kind, clock, g, self.state.repetition) else {
            self.state.clock += 1;
            return Ok(NO_PROCESS);
        };
        let tti = Tti {
            setup: self.setup,
            clock,
            gap,
            process,
        };
        let roomy = Roomy { radio };
        Ok(tti.turn(&mut self.state, memory, roomy, source, g))
    }

    // Puts a packet into the Msg3 buffer. Until a withdrawal each Random Access Response grant sends it. The clock stays.
    pub fn deposit(&mut self, memory: &mut [u8], packet: &[u8]) -> Result<(), Refusal>
        ensures whole { record { answer = result; state = self.new.state; memory = memory.new } ≡ after_deposit self.old.state memory.old packet.now }
        ensures setup { self.new.setup ≡ self.old.setup }
        ensures promise { (count : ℕ) → KeepsPromise self.old.setup (world self.old.state memory.old count) (deposit_call packet.now) (world self.new.state memory.new count) }
    {
        let memory = memory
            .as_mut_array::<PACKET_MEMORY>()
            .ok_or(Refusal::PacketMemory)?;
        ask_of_deposit(packet.len(), self.state.msg3)?;
        Stretch::MSG3.write(memory, packet);
        self.state.msg3 = Some(packet.len() as u16);
        Ok(())
    }

    // Empties the Msg3 buffer. Packet memory and the clock stay.
    pub fn withdraw(&mut self) -> Result<(), Refusal>
        ensures whole { (memory : List ℕ) → record { answer = result; state = self.new.state; memory = memory } ≡ after_withdrawal self.old.state memory }
        ensures setup { self.new.setup ≡ self.old.setup }
        ensures promise { (memory : List ℕ) (count : ℕ) → KeepsPromise self.old.setup (world self.old.state memory count) withdrawal_call (world self.new.state memory count) }
    {
        ask_of_withdrawal(self.state.msg3)?;
        self.state.msg3 = None;
        Ok(())
    }
}
