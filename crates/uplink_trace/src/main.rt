// Reads a trace of an uplink cell on standard input, and writes the cell's answers to standard output.
#![tactic(auto)]

use std::io::{ErrorKind, Read, Write};
use trace::answer::{LONGEST_TRACE, answer};

fn main(rt: HostRuntime) -> anyhow::Result<()> {
    // on the stack, so that reading asks for no memory
    let mut buffer = [0u8; LONGEST_TRACE];
    let mut input = rt.stdin().take(LONGEST_TRACE as u64);
    if let Err(e) = input.read_exact(&mut buffer) {
        // a trace may end before the buffer is full
        if e.kind() != ErrorKind::UnexpectedEof {
            return Err(e.into());
        }
    }
    let n = LONGEST_TRACE.saturating_sub(input.limit() as usize);
    let out = answer(rt.alloc(), &buffer[..n])?;
    rt.stdout().write_all(out.as_slice())?;
    Ok(())
}
