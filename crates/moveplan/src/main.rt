// Reads a plan file on standard input, and prints its report.
#![tactic(auto)]

use anyhow::anyhow;
use planfile::report;
use std::io::{Read, Write};

fn run(rt: &HostRuntime) -> anyhow::Result<()> {
    let mut file = Vec::new(rt.alloc());
    rt.stdin().read_to_end(&mut file)?;
    let mut sheet = vec![in rt.alloc(); 0u8; 16384]?;
    // Stays a `let .. else`: behind `map_err` and `?` the check ran out of memory at the range of the sheet.
    let Ok(length) = report(&file, &mut sheet) else {
        return Err(anyhow!("the sheet for the report is too short"));
    };
    rt.stdout().write_all(&sheet[..length])?;
    Ok(())
}

fn main(rt: HostRuntime) -> anyhow::Result<()> {
    run(&rt)
}
