// The questions of a subframe, in their order.
ghost use Rattle.std.specs.Prelude.{◌≡◌, ◌%◌, ◌==◌, ◌&&◌, not};
ghost use Rattle.rules.specs.Questions.{answer_due, is_bundled, grant_wants_new, questioned, asked_of_grant};

use crate::cell::Cell;
use crate::entity::{fetch, identify, identify_answered, is_new, running};
use crate::process::is_synchronous;
use crate::questions::{CLOCK_END, do_fields_hold};
use crate::reception::{enforce, refer};
use terms::answer::Refusal;
use terms::grant::Grant;
use terms::process::Feedback;
use terms::setup::CellKind;

impl Cell {
    fn is_answer_due(&self, gap: bool, answer: Option<Feedback>) -> bool
        ensures { result ≡ answer_due self.now.setup self.now.state gap answer }
    {
        if answer.is_none() {
            return true;
        }
        let k = identify_answered(self.setup.kind, self.state.clock);
        is_synchronous(self.setup.kind)
            && !gap
            && k.is_some_and(|k| fetch(&self.state.processes, k).awaits_answer)
    }

    // Whether a grant over the air wants a new transmission.
    fn is_new_wanted(&self, g: Grant) -> bool
        ensures { result ≡ grant_wants_new self.now.setup self.now.state g }
    {
        let g = enforce(g);
        let k = identify(self.setup.kind, self.state.clock, g, self.state.repetition);
        let (Some(in_force), Some(k)) = (g, k) else {
            return false;
        };
        is_new(
            in_force.reception,
            refer(g, fetch(&self.state.processes, k)),
        )
    }

    // Whether the subframe is one of a bundle, and not its first.
    fn is_within_bundle(&self) -> bool
        ensures { result ≡ (is_bundled self.now.setup.kind && not (self.now.state.clock % 4 == 0)) }
    {
        self.setup.kind == CellKind::Bundled && self.state.clock % 4 != 0
    }

    fn ask_of_grant(&self, grant: Option<Grant>) -> Result<(), Refusal>
        ensures { result ≡ asked_of_grant self.now.setup self.now.state grant }
    {
        let Some(g) = grant else {
            return Ok(());
        };
        if !do_fields_hold(self.setup, g) {
            return Err(Refusal::GrantFields);
        }
        if running(self.state.clock, self.state.repetition).is_some() {
            return Err(Refusal::RepetitionRuns);
        }
        if self.is_within_bundle() {
            return Err(Refusal::OffBundle);
        }
        if self.is_new_wanted(g) && g.mcs > 28 {
            return Err(Refusal::NewTransmissionMcs);
        }
        Ok(())
    }

    // All but the first, which asks for packet memory.
    pub(crate) fn ask(
        &self,
        ready: bool,
        gap: bool,
        answer: Option<Feedback>,
        grant: Option<Grant>,
    ) -> Result<(), Refusal>
        ensures { result ≡ questioned self.now.setup self.now.state 5805 ready gap answer grant }
    {
        if self.state.clock >= CLOCK_END {
            return Err(Refusal::ClockEnded);
        }
        if !ready {
            return Err(Refusal::RadioFull);
        }
        if !self.is_answer_due(gap, answer) {
            return Err(Refusal::NoAnswerDue);
        }
        self.ask_of_grant(grant)
    }
}
