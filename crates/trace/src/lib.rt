// A trace goes in, and the answers of the cell come out.
#![tactic(auto)]

pub mod answer;
mod session;
mod text;
