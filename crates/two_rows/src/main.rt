//! Shows the first two rows of a tray. What a program may not do while it holds a value of a row, nor with its slip, is tried on copies of this
//! one by tools/refused_programs.py.
#![tactic(auto)]

use anyhow::{Result, anyhow};
use host::Host;
use mysql::Fault;
use session::{Session, Value};
use std::process::ExitCode;
use tray::Tray;
use words::InWords;

/// A fault, as the error that the program ends with.
fn in_words(fault: Fault) -> anyhow::Error {
    anyhow!("{}", InWords(fault))
}

/// Prints what a reading of a column shows.
fn print_value<R: Print>(rt: &R, value: Option<Value>) -> Result<()> {
    match value {
        Some(shown) => println!(rt; "{} bytes", shown.value().as_bytes().len())?,
        None => println!(rt; "null")?,
    }
    Ok(())
}

/// Fetches two rows, and prints what each has in its first column.
fn print_rows<R: Print, H: Host>(rt: &R, session: &mut Session<H>, arena: &mut [u8]) -> Result<()> {
    session.fetch(arena).map_err(in_words)?;
    let first = session.read(arena, 0).map_err(in_words)?;
    print_value(rt, first)?;
    session.fetch(arena).map_err(in_words)?;
    let second = session.read(arena, 0).map_err(in_words)?;
    print_value(rt, second)
}

/// Opens a session over a tray, prints its rows, and closes it with its slip.
fn run<R: Print>(rt: &R) -> Result<()> {
    let mut arena = [0; 256];
    let mut session = Session::new(Tray::new(2));
    match session.open(&mut arena, &[]) {
        Ok(slip) => {
            let printed = print_rows(rt, &mut session, &mut arena);
            let _tray = session.close(Some(slip));
            printed
        }
        Err(fault) => {
            let _tray = session.close(None);
            Err(in_words(fault))
        }
    }
}

fn main(rt: HostRuntime) -> ExitCode {
    files::end(&rt, "two_rows", run(&rt))
}
