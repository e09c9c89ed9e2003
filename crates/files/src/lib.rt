//! What the programs that go through the files that they are named have in common.
#![tactic(auto)]

ghost use Rattle.std.specs.Prelude.{◌≡◌, cond, is_ok, Some, None, Ok, IfOk, MatchResult};
ghost use Rattle.std.specs.Process.{exit_status};

use anyhow::Result;
use mysql::Fault;
use std::fmt::Display;
use std::io;
use std::process::ExitCode;
use words::InWords;

/// The bytes that were read of a file; or none where it cannot be read, and why is said on standard error. An error is one of saying so.
pub fn bytes_read<R: Eprint>(
    rt: &R,
    name: &str,
    read: io::Result<Vec<u8>>,
) -> Result<Option<Vec<u8>>>
    ensures { MatchResult read (λ bytes. result ≡ Ok (Some bytes)) (λ error. IfOk result (λ bytes. bytes ≡ None)) }
{
    match read {
        Ok(bytes) => Ok(Some(bytes)),
        Err(error) => {
            eprintln!(rt; "{name}: cannot be read: {error}")?;
            Ok(None)
        }
    }
}

/// Prints what a file holds, or on standard error why it holds none, and says whether it does. An error is one of printing.
pub fn print_held<R: Print + Eprint, T: Display + Drop>(
    rt: &R,
    name: &str,
    held: Result<T, Fault>,
) -> Result<bool>
    ensures { IfOk result (λ printed. printed ≡ is_ok held) }
{
    match held {
        Ok(held) => {
            print!(rt; "{name}: {held}")?;
            Ok(true)
        }
        Err(fault) => {
            let fault = InWords(fault);
            eprintln!(rt; "{name}: {fault}")?;
            Ok(false)
        }
    }
}

/// How a program ends: what went wrong is said on standard error, and ends it with status 1.
pub fn end<R: Eprint>(rt: &R, program: &str, outcome: Result<()>) -> ExitCode
    ensures { exit_status result ≡ cond (is_ok outcome) 0 1 }
{
    match outcome {
        Ok(()) => ExitCode::SUCCESS,
        Err(error) => {
            let _ = eprintln!(rt; "{program}: {error}");
            ExitCode::FAILURE
        }
    }
}
