//! Counts what hosts have to come: `count FILE..` counts the events of tapes, `--tray N` the rows of a tray of N rows.
#![tactic(auto)]

mod count;

use anyhow::anyhow;
use count::{Counted, OfTape};
use counts::print_tray;
use files::{bytes_read, end, print_held};
use std::process::ExitCode;
use std::{env, fs};
use tally::tally;
use tape_host::Tape;

/// What stands before the number of a tray's rows.
const TRAY: &str = "--tray";

/// Prints the count of what a file holds, or why it is no tape, and says whether it is one.
fn count_file(rt: &HostRuntime, name: &str) -> anyhow::Result<bool> {
    let Some(bytes) = bytes_read(rt, name, fs::read(rt, name))? else {
        return Ok(false);
    };
    let counted = Tape::new(&bytes).map(|mut tape| Counted(tally(&mut tape).map(OfTape)));
    print_held(rt, name, counted)
}

/// Counts each file and tray that is named, and fails where one cannot be counted or none is named.
fn run(rt: &HostRuntime) -> anyhow::Result<()> {
    let mut words = env::args(rt)?.skip(1).peekable();
    if words.peek().is_none() {
        return Err(anyhow!("name what to count: count FILE.. or count --tray N"));
    }
    let mut all_counted = true;
    while let Some(word) = words.next() {
        if word.as_str() == TRAY {
            let Some(rows) = words.next() else {
                return Err(anyhow!("--tray wants a number of rows, 0 to 65535"));
            };
            all_counted &= print_tray(rt, rows.as_str())?.is_some();
        } else {
            all_counted &= count_file(rt, word.as_str())?;
        }
    }
    if !all_counted {
        return Err(anyhow!("not everything that was named can be counted"));
    }
    Ok(())
}

fn main(rt: HostRuntime) -> ExitCode {
    end(&rt, "count", run(&rt))
}
