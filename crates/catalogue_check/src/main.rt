// Prints the tags of a catalogue text from standard input, or where the text is refused.
#![tactic(auto)]

use anyhow::ensure;
use report::report_of;
use std::io::{Read, Write};

mod lines;
mod report;

fn main(rt: HostRuntime) -> anyhow::Result<()> {
    let mut text = Vec::new(rt.alloc());
    rt.stdin().read_to_end(&mut text)?;
    let report = report_of(rt.alloc(), text.as_slice())?;
    rt.stdout().write_all(report.printed.as_slice())?;
    ensure!(report.fault.is_none(), "the text is refused");
    Ok(())
}
