// A cabin that goes down a shaft: a cell over a tape, piled sources and a span list. Writes what each subframe came to.
#![tactic(auto)]

mod coming;
mod report;
mod ride;

use crate::coming::{answer_at, grant_at};
use crate::report::{Line, Slot};
use crate::ride::Ride;
use below::spans::Span;
use cell::cell::Cell;
use slot::SLOT;
use std::io;
use terms::answer::Reply;
use terms::setup::CellKind;

// How often a packet is sent at most.
const MAX_HARQ_TX: u8 = 3;

// How many subframes the ride takes.
const SUBFRAMES: u8 = 48;

// The bytes of a tape of ten slots.
const TAPE: usize = 10 * SLOT;

// Two packets, of three and of two bytes.
const RECORDS: [u8; 9] = [0, 3, 0xd0, 0x01, 0x28, 0, 2, 0xd0, 0x02];

// The number of the cabin's radio.
const UNIT: u32 = 0xcab1_0007;

// Subframes 9 to 12, in two spans that touch, and 28.
const GAPS: [Span; 3] = [
    Span { from: 9, to: 11 },
    Span { from: 11, to: 13 },
    Span { from: 28, to: 29 },
];

// Writes what a subframe came to, if it did something.
fn tell(rt: &HostRuntime, ride: &Ride<'_>, subframe: u64, reply: Reply) -> io::Result<()> {
    let line = Line {
        subframe,
        reply,
        latest: ride.latest(),
    };
    if line.tells() {
        println!(rt; "{line}")?;
    }
    Ok(())
}

// Lets the subframes of the ride pass.
fn descend(rt: &HostRuntime, ride: &mut Ride<'_>) -> io::Result<()> {
    for _ in 0..SUBFRAMES {
        let subframe = ride.clock();
        match ride.pass(answer_at(subframe), grant_at(subframe)) {
            Ok(reply) => tell(rt, ride, subframe, reply)?,
            Err(refusal) => {
                println!(rt; "{subframe:>3}  {refusal}")?;
            }
        }
    }
    Ok(())
}

// Writes the tally, and what stands on the tape.
fn sum_up(rt: &HostRuntime, ride: &Ride<'_>) -> io::Result<()> {
    let tally = ride.tally();
    let packets = tally.packets;
    let sendings = tally.sendings;
    println!(rt; "{packets} packets begun, {sendings} sendings made")?;
    // by number, which is written too
    for number in 0..ride.taken() {
        if let Some(sending) = ride.sending(number) {
            let slot = Slot { number, sending };
            println!(rt; "{slot}")?;
        }
    }
    Ok(())
}

fn main(rt: HostRuntime) -> anyhow::Result<()> {
    let mut tape = [0; TAPE];
    let cell = Cell::set_up(CellKind::Plain as u8, MAX_HARQ_TX, MAX_HARQ_TX, 0, 0)?;
    let mut ride = Ride::new(cell, &mut tape, &RECORDS, UNIT, &GAPS);
    descend(&rt, &mut ride)?;
    sum_up(&rt, &ride)?;
    Ok(())
}
