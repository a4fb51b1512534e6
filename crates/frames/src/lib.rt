// The frames of a trace, one to a line of hexadecimal text, and the book of its packets.
#![tactic(auto)]

pub mod book;
pub mod frame;
pub mod lines;
pub mod read;
pub mod trips;
pub mod write;
