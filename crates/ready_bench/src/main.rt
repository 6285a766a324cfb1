// Makes large books ready and prints how many pairs of states their rows connect. With an argument it does so many
// times, and writes to stderr how long one time takes.
#![tactic(auto)]

use book::limits::MOST_STATES;
use book::shape_book::ShapeBook;
use ready::ready::{Ready, make_ready};
use ready_samples::SampleBook;
use ready_samples::made::{chain_book, random_book, ring_book, stairs_book};
use std::time::Instant;
use std::{env, io};

const TIMES: u32 = 200;

fn pairs<B: ShapeBook>(ready: &Ready<B>) -> usize {
    (0..MOST_STATES)
        .map(|from| {
            let row = ready.row(from);
            (0..MOST_STATES).filter(|to| row.contains(*to)).count()
        })
        .fold(0, |all: usize, row| all.wrapping_add(row))
}

fn once(book: SampleBook) -> (SampleBook, usize) {
    let ready = make_ready(book);
    let count = pairs(&ready);
    (ready.hand_back(), count)
}

fn report(rt: &HostRuntime, name: &str, book: SampleBook, times: u32) -> io::Result<()> {
    let start = Instant::now(rt)?;
    let (mut left, mut count) = once(book);
    for _ in 1..times {
        let (same, again) = once(left);
        left = same;
        count = again;
    }
    let spent = start.elapsed(rt)?;
    println!(rt; "{name}: {count} pairs")?;
    if times > 1 {
        let each = spent.as_nanos() / TIMES as u128;
        eprintln!(rt; "{name}: {each} ns")?;
    }
    Ok(())
}

fn main(rt: HostRuntime) -> io::Result<()> {
    let times = if env::args(&rt)?.count() > 1 {
        TIMES
    } else {
        1
    };
    report(&rt, "random, 64 states", random_book(64, 7), times)?;
    report(&rt, "ring, 64 states", ring_book(64), times)?;
    report(&rt, "chain, 64 states", chain_book(64), times)?;
    report(&rt, "stairs, 64 states", stairs_book(64), times)
}
