// What stands below a cell, by what each kind means to it.
#![tactic(auto)]

pub mod gap_plan;
pub mod radio;
pub mod source;
