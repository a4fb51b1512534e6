// Kinds of what stands below a cell: radios, sources and gap plans.
#![tactic(auto)]

pub mod book;
pub mod heartbeat;
pub mod mailbox;
pub mod pattern;
pub mod piled;
pub mod spans;
mod stretch;
pub mod tape;
