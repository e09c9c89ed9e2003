//! Shows what tapes hold: `show FILE..` prints the columns and the events of each, and `--tray N` the count of a tray of N rows.
#![tactic(auto)]

mod print;

use anyhow::anyhow;
use counts::print_tray;
use files::{bytes_read, end, print_held};
use print::InLines;
use std::process::ExitCode;
use std::{env, fs};
use tape::Recording;

/// What stands before the number of a tray's rows.
const TRAY: &str = "--tray";

/// Prints what a file holds, or why it is no tape, and says whether it is one.
fn show_file(rt: &HostRuntime, name: &str) -> anyhow::Result<bool> {
    let Some(bytes) = bytes_read(rt, name, fs::read(rt, name))? else {
        return Ok(false);
    };
    print_held(rt, name, Recording::new(&bytes).map(InLines))
}

/// Shows each file and tray that is named, and fails where one cannot be shown or none is named.
fn run(rt: &HostRuntime) -> anyhow::Result<()> {
    let mut words = env::args(rt)?.skip(1).peekable();
    if words.peek().is_none() {
        return Err(anyhow!("name what to show: show FILE.. or show --tray N"));
    }
    let mut all_shown = true;
    while let Some(word) = words.next() {
        if word.as_str() == TRAY {
            let Some(rows) = words.next() else {
                return Err(anyhow!("--tray wants a number of rows, 0 to 65535"));
            };
            all_shown &= print_tray(rt, rows.as_str())?.is_some();
        } else {
            all_shown &= show_file(rt, word.as_str())?;
        }
    }
    if !all_shown {
        return Err(anyhow!("not everything that was named can be shown"));
    }
    Ok(())
}

fn main(rt: HostRuntime) -> ExitCode {
    end(&rt, "show", run(&rt))
}
