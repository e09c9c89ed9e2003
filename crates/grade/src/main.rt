//! Loads class lists: `grade FILE..` opens each tape through a session, fetches to the end, and prints what became of every row. `grade --help` says more.
#![tactic(auto)]

mod arguments;
mod cells;
mod list;
mod table;

use anyhow::{Result, anyhow};
use arguments::{Asked, HELP, Job, read_arguments};
use class_list::{Loaded, load};
use files::{bytes_read, end};
use list::print_list;
use std::fs;
use std::process::ExitCode;
use tape_host::Tape;
use words::InWords;

/// Prints the class list that a file holds, or why there is none, and says whether there is one.
fn grade_file(rt: &HostRuntime, job: &Job) -> Result<bool> {
    let name = job.name.as_str();
    let mut arena = vec![in rt.alloc(); 0u8; job.arena]?;
    let Some(bytes) = bytes_read(rt, name, fs::read(rt, name))? else {
        return Ok(false);
    };
    match Tape::new(&bytes) {
        Ok(tape) => {
            let Loaded {
                host: _,
                lines,
                outcome,
            } = load(rt.alloc(), tape, &mut arena, &job.wanted);
            print_list(rt, name, &lines, outcome)
        }
        Err(fault) => {
            eprintln!(rt; "{name}: {}", InWords(fault))?;
            Ok(false)
        }
    }
}

/// Loads what is asked for, and fails where one of the lists cannot be loaded.
fn run(rt: &HostRuntime) -> Result<()> {
    let Asked::Load(jobs) = read_arguments(rt)? else {
        print!(rt; "{HELP}")?;
        return Ok(());
    };
    let mut all_loaded = true;
    for job in &jobs {
        all_loaded &= grade_file(rt, job)?;
    }
    if !all_loaded {
        return Err(anyhow!("not every class list could be loaded"));
    }
    Ok(())
}

fn main(rt: HostRuntime) -> ExitCode {
    end(&rt, "grade", run(&rt))
}

#[cfg(test)]
mod tests {
    use super::*;
    use class_list::LoadError;
    use std::test::Fail;

    /// Three whole numbers: a row, and a failure.
    const TAPE: &[u8] = b"\x03\0\x02\0\x03\0\0\0\0\x03\0\0\0\0\x03\0\0\0\0\
        \0\x01\x04\0\0\0\x07\0\0\0\x01\x04\0\0\0\x08\0\0\0\0\
        \x01\x09\0";

    /// Without memory for a line it is said so; with `--fail-alloc` this is the case.
    #[test]
    fn all_lines_are_loaded_while_there_is_memory(rt: HostRuntime) -> Result<(), Fail> {
        let mut arena = [0; 12];
        let Loaded {
            host: _,
            lines,
            outcome,
        } = load(rt.alloc(), Tape::new(TAPE)?, &mut arena, &[]);
        let count = lines.len();
        match outcome {
            Ok(()) => assert_eq!(rt; count, 2),
            Err(LoadError::OutOfMemory) => assert!(rt; count < 2),
            Err(LoadError::NotListed(_)) => assert!(rt; false, "no class list"),
        }
        Ok(())
    }
}
