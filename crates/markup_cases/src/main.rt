// Reads each text of standard input, a line each, and prints how its reading ends: the fault's number and place
// (0 and 0 for a right text), and how many tags it gives. Then all prefixes of a long right text, and all its
// changes of one byte, counted by how they end.
#![tactic(auto)]

use changes::{long_text, note_changes, note_prefixes};
use escapes::unescaped;
use markup::ReaderFault;
use markup_host::{Summary, summarize};

mod changes;
mod counts;
mod escapes;

fn main(rt: HostRuntime) -> anyhow::Result<()> {
    for line in rt.lines(rt.alloc()) {
        let line = line?;
        let text = unescaped(rt.alloc(), line.as_bytes())?;
        let Summary { tags, fault } = summarize(text.as_slice());
        let number = fault.map_or(0, ReaderFault::number);
        let place = fault.map_or(0, ReaderFault::place);
        println!(rt; "{number} {place} {tags} {line}")?;
    }
    let counts = note_prefixes(long_text());
    println!(rt; "prefixes: {counts}")?;
    let mut text = long_text().to_vec(rt.alloc())?;
    let counts = note_changes(text.as_mut_slice());
    println!(rt; "changes: {counts}")?;
    Ok(())
}
