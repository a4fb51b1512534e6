// The rules of the uplink HARQ stand in specs/ as definitions. Each function here carries a theorem about them.
#![tactic(auto)]

ghost use Rattle.rules.specs.Worked.{WorkedRuns};

// The worked runs follow from the rules.
pub fn worked_runs_stand()
    ensures { WorkedRuns }
{}
