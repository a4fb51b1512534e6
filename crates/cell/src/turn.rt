// The subframe of a process, from the grant in force to the reply.
ghost use Rattle.std.specs.Prelude.{◌≡◌};
ghost use Rattle.ports.specs.Source.{FitsAsked};
ghost use Rattle.rules.specs.Subframe.{process_done};
ghost use Rattle.rules.specs.Invariant.{Sound, SizedGrant, NamedBelow};
ghost use Rattle.cell.specs.Calls.{after_done};

use crate::PACKET_MEMORY;
use crate::entity::fetch;
use crate::harq_process::HarqProcess;
use crate::reception::refer;
use crate::roomy::Roomy;
use crate::tti::Tti;
use ports::radio::Radio;
use ports::source::Source;
use terms::answer::Reply;
use terms::grant::GrantInForce;
use terms::state::State;

impl Tti {
    // The answer was heard, and `g` is the grant in force.
    pub(crate) fn turn<R: Radio, S: Source>(
        self,
        state: &mut State,
        memory: &mut [u8; PACKET_MEMORY],
        roomy: Roomy<'_, R>,
        source: &mut S,
        g: Option<GrantInForce>,
    ) -> Reply
        requires clock { state.old.clock ≡ self.clock }
        requires sound { Sound self.setup state.old }
        requires sized { SizedGrant g }
        requires named { NamedBelow self.setup.kind g }
        ensures whole { record { answer = result; state = state.new; memory = memory.new; radio = R.radioed roomy.exit.0.now; source = source.new } ≡ after_done S.offers S.used (R.radioed roomy.entry.radio.now) source.old (process_done self.setup state.old memory.old self.gap (S.offers source.old) g self.process).reply (process_done self.setup state.old memory.old self.gap (S.offers source.old) g self.process) }
        ensures sound { Sound self.setup state.new }
        ensures fits { FitsAsked (S.offers source.old) (process_done self.setup state.old memory.old self.gap (S.offers source.old) g self.process).asked }
        ensures lender { R.lender roomy.exit.0.now ≡ R.lender roomy.entry.radio.now }
    {
        let p = HarqProcess {
            setup: self.setup,
            process: refer(g, fetch(&state.processes, self.process)),
        };
        let decision = p.decide(g);
        let work = self.begin(memory, source, state.msg3, p, decision);
        let conclusion = self.conclude(memory, roomy, work);
        let repetition = self.rerun(g, work, state.repetition);
        self.finish(state, repetition, conclusion);
        conclusion.reply
    }
}
