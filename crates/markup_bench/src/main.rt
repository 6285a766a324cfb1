// Makes a catalogue text in memory, reads it, and prints how many tags it has. With an argument, the size in MiB,
// the time goes to standard error.
#![tactic(auto)]

use catalogue::catalogue;
use markup_host::markup_tags;
use std::env;
use std::time::Instant;

mod catalogue;

fn main(rt: HostRuntime) -> anyhow::Result<()> {
    let mut args = env::args(&rt)?;
    let _program = args.next();
    let size = args.next().map(|word| word.parse::<u16>()).transpose()?;
    let text = catalogue(rt.alloc(), size.unwrap_or(1))?;
    let start = Instant::now(&rt)?;
    let tags = markup_tags(text.as_bytes());
    let taken = start.elapsed(&rt)?;
    let bytes = text.len();
    println!(rt; "{bytes} bytes, {tags} tags")?;
    if size.is_some() {
        let millis = taken.as_millis();
        eprintln!(rt; "{millis} ms")?;
    }
    Ok(())
}
