// The vocabulary: every type that two parts of the library share.
#![tactic(auto)]

pub mod answer;
pub mod decision;
pub mod grant;
pub mod instruction;
pub mod process;
pub mod setup;
pub mod state;
pub mod tally;
pub mod version;
