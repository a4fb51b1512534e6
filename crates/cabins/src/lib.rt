// The report of a site: from the list of its cabins, as text, to the text of their figures.
#![tactic(auto)]

pub mod line;
pub mod list;
pub mod report;
mod text;
