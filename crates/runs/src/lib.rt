// Whole runs of a cell: what holds of every list of calls from set-up on stands in specs/. Each function here carries a theorem about them.
#![tactic(auto)]

ghost use Rattle.runs.specs.Promise.{RunsExact, StaysCounted, StaysKept, StaysAlike, PromiseHolds};
ghost use Rattle.runs.specs.Examples.{Examples};

// The radio took what the rules sent, and nothing else.
pub fn runs_exact()
    ensures { RunsExact }
{}

// The radio's count and the tally are those of the stays, and each sending belongs to exactly one stay.
pub fn stays_counted()
    ensures { StaysCounted }
{}

// A stay sends its own packet alone, from Msg3 that of the last deposit, and no more often than it may.
pub fn stays_kept()
    ensures { StaysKept }
{}

// A stay depends on its beginning and the surroundings of its process alone.
pub fn stays_alike()
    ensures { StaysAlike }
{}

// All four laws hold of every past whose set-up was accepted.
pub fn promise_holds()
    ensures { PromiseHolds }
{}

// Stays with several sendings, and stays of different runs that began alike and met the same.
pub fn examples_stand()
    ensures { Examples }
{}
