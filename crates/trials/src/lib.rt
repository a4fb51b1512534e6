// Runs of the library against answers that were worked out without it.
#![tactic(auto)]

#[cfg(test)]
mod calls;
#[cfg(test)]
mod kinds;
pub mod sources;
#[cfg(test)]
mod tapes;
#[cfg(test)]
mod traces;
#[cfg(test)]
mod writing;
