// Reads the list of a site's cabins on standard input, and writes their report to standard output.
#![tactic(auto)]

use cabins::report::report;
use std::io::{Read, Write};

fn main(rt: HostRuntime) -> anyhow::Result<()> {
    let mut input = Vec::new(rt.alloc());
    rt.stdin().read_to_end(&mut input)?;
    let out = report(rt.alloc(), input.as_slice())?;
    rt.stdout().write_all(out.as_slice())?;
    Ok(())
}
