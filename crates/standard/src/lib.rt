// The uplink HARQ of TS 36.321 stands in specs/ as relations in that text's own terms. The function here carries the theorem that a cell follows them.
#![tactic(auto)]

ghost use Rattle.standard.specs.Conformance.{MeetsTheStandard};

// In every run of a cell, the relations have the MAC entity transmit in each TTI exactly what the cell sends there, or nothing where it sends nothing.
pub fn standard_met()
    ensures { MeetsTheStandard }
{}
