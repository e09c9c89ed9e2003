//! Reads trays through sessions: `trays N..` fetches all rows of a tray of N rows, and prints how many there are, how many are null, how many bytes the
//! others have, and the checksum of these bytes.
#![tactic(auto)]

mod reading;
mod sums;

use anyhow::{Result, anyhow};
use files::end;
use reading::{Summed, read_all};
use std::env;
use std::process::ExitCode;
use tray::Tray;
use words::InWords;

/// The longest arena that a session takes. A row of a tray has fewer than 200 bytes.
const ARENA: usize = 65536;

/// Reads a tray to its end, and prints what it has.
fn print_tray(rt: &HostRuntime, rows: u16, arena: &mut [u8]) -> Result<()> {
    let Summed { host: _, sums } = read_all(Tray::new(rows), arena);
    let sums = sums.map_err(|fault| anyhow!("tray of {rows}: {}", InWords(fault)))?;
    println!(rt; "tray of {rows}: {sums}")?;
    Ok(())
}

/// Reads each tray that is named, and fails where none is, or where one cannot be had.
fn run(rt: &HostRuntime) -> Result<()> {
    let mut words = env::args(rt)?.skip(1).peekable();
    if words.peek().is_none() {
        return Err(anyhow!("say how many rows the trays have: trays N.., each 0 to 65535"));
    }
    let mut arena = vec![in rt.alloc(); 0u8; ARENA]?;
    for word in words {
        let Ok(rows) = word.parse::<u16>() else {
            return Err(anyhow!("{word}: a tray has 0 to 65535 rows"));
        };
        print_tray(rt, rows, &mut arena)?;
    }
    Ok(())
}

fn main(rt: HostRuntime) -> ExitCode {
    end(&rt, "trays", run(&rt))
}
