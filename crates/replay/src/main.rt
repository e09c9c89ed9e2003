//! Compares recorded answers of the original with this port's: `replay < LINES`. It prints each difference and each line that cannot be read,
//! then how many cases of each kind there were.
#![tactic(auto)]

mod counts;
mod lines;

use anyhow::anyhow;
use counts::Counts;
use lines::{Compared, Comparer};
use std::io::{BufRead, BufReader};
use std::process::ExitCode;

/// How much is read at once.
const ROOM: usize = 65_536;

/// Compares a line, and prints what is wrong with it.
fn replay_line(
    rt: &HostRuntime,
    comparer: &mut Comparer,
    counts: &mut Counts,
    number: u64,
    line: &[u8],
) -> anyhow::Result<()> {
    match comparer.compare(line) {
        Ok(Compared::Comment) => counts.add_comment(),
        Ok(Compared::Same(kind)) => counts.add_case(kind),
        Ok(Compared::Different { kind, line, answer }) => {
            counts.add_case(kind);
            counts.add_difference();
            println!(rt; "line {number}: {line} the port answers{answer}")?;
        }
        Err(unread) => {
            counts.add_unread();
            println!(rt; "line {number}: cannot be read: {unread}")?;
        }
    }
    Ok(())
}

/// Compares all lines of the input, and says how many were what.
fn replay_all<R: BufRead>(rt: &HostRuntime, input: &mut R) -> anyhow::Result<Counts> {
    let mut comparer = Comparer::new(rt.alloc())?;
    let mut counts = Counts::default();
    let mut line = Vec::new(rt.alloc());
    for number in 1..u64::MAX {
        line.clear();
        if input.read_until(b'\n', &mut line)? == 0 {
            return Ok(counts);
        }
        replay_line(rt, &mut comparer, &mut counts, number, &line)?;
    }
    Err(anyhow!("the input has no end"))
}

/// Replays standard input, and says whether every line is a comment or a case without a difference.
fn run(rt: &HostRuntime) -> anyhow::Result<bool> {
    let mut input = BufReader::with_capacity(rt.alloc(), ROOM, rt.reader())?;
    let counts = replay_all(rt, &mut input)?;
    print!(rt; "{counts}")?;
    Ok(counts.is_clean())
}

fn main(rt: HostRuntime) -> ExitCode {
    match run(&rt) {
        Ok(true) => ExitCode::SUCCESS,
        Ok(false) => ExitCode::FAILURE,
        Err(error) => {
            let _ = eprintln!(rt; "replay: {error}");
            ExitCode::FAILURE
        }
    }
}
