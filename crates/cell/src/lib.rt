// The cell: its set-up and its calls.
#![tactic(auto)]

pub mod cell;
mod entity;
mod harq_process;
mod memory;
mod process;
mod questions;
mod reception;
mod roomy;
mod stretch;
mod tti;
mod turn;
mod work;

use terms::instruction::LONGEST_PACKET;

// How many bytes of packet memory a cell is given: a stretch for each of eight processes, and one for the Msg3 buffer.
pub const PACKET_MEMORY: usize = 9 * LONGEST_PACKET;
