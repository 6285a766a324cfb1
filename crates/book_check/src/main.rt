// Says whether the book file `book.sel` in the working directory is right, and what is in it.
#![tactic(auto)]

ghost use Rattle.std.specs.Prelude.{◌≤◌, length, take};
ghost use Rattle.std.specs.Io.KnownBytes.{Consumes};

use anyhow::ensure;
use book_report::report::report_on;
use std::fs;
use std::io::{Read, Write};

// How much of the file is read.
const LIMIT: usize = 32768;

// Reads until the buffer is full, nothing more comes or the reader breaks off, and says how many bytes came.
#[tactic(auto, using(crate::proofs::Filling::filled_more))]
fn fill<R: Read>(from: &mut R, buf: &mut [u8]) -> usize
    ensures within { result ≤ length buf.new }
    ensures first { Consumes (R.remaining from.old) (R.remaining from.new) (take result buf.new) }
{
    let mut have = 0;
    'reads: while have < buf.len() {
        match from.read(&mut buf[have..]) {
            Ok(0) | Err(_) => break,
            Ok(n) => have += n,
        }
    }
    have
}

// Reads the first bytes of a file, and says how many; one that is missing or cannot be read is empty.
fn read_start(rt: &HostRuntime, path: &str, buf: &mut [u8]) -> usize
    ensures { result ≤ length buf.new }
{
    match fs::open(rt, path) {
        Ok(mut file) => fill(&mut file, buf),
        Err(_) => 0,
    }
}

fn main(rt: HostRuntime) -> anyhow::Result<()> {
    let mut buf = [0; LIMIT];
    let size = read_start(&rt, "book.sel", &mut buf);
    let report = report_on(rt.alloc(), &buf[..size])?;
    rt.stdout().write_all(report.printed.as_slice())?;
    ensure!(report.fault.is_none(), "the book file is refused");
    Ok(())
}
