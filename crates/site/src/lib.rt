// A site's cabins: the figure of each from its tally, and the figure of the whole site.
#![tactic(auto)]

pub mod figure;
pub mod tallies;
