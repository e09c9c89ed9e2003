//! Recorded class lists, for callers in C: clib/outlets.h declares these functions. Each calls one of the crate outlets, and says its clauses again.
#![tactic(auto)]

ghost use Rattle.std.specs.Prelude.{◌≡◌};
ghost use Rattle.outlets_c.specs.Told.{told, SizeTold, CountsTold, OutletTold};

use mysql::Fault;
use outlets::{RowCounts, TapeSize, count_recorded, find_recorded, tape_size};

/// What C is told where no row of the class is shown. No refusal has this number.
const NO_SUCH_CLASS: i64 = -1000;

/// A refusal, as C is told of it.
fn told(fault: Fault) -> i32
    ensures { result ≡ told fault }
{
    -(fault.number() as i32)
}

/// 0 and the numbers of columns and events of a tape, or a refusal.
#[unsafe(no_mangle)]
pub extern "C" fn outlets_tape_size(tape: &[u8], size: &mut TapeSize) -> i32
    ensures { SizeTold tape.now size.old result size.new }
{
    match tape_size(tape) {
        Ok(found) => {
            *size = found;
            0
        }
        Err(fault) => told(fault),
    }
}

/// 0 and the counts of what a session over this arena shows of a tape, or a refusal.
#[unsafe(no_mangle)]
pub extern "C" fn outlets_count(tape: &[u8], arena: &mut [u8], counts: &mut RowCounts) -> i32
    ensures { CountsTold tape.now arena.old arena.new counts.old result counts.new }
{
    match count_recorded(tape, arena) {
        Ok(found) => {
            *counts = found;
            0
        }
        Err(fault) => told(fault),
    }
}

/// The length of a class's outlet, which is copied where there is room for it; or a refusal, or that no row of the class is shown.
#[unsafe(no_mangle)]
pub extern "C" fn outlets_find(tape: &[u8], arena: &mut [u8], class: i32, into: &mut [u8]) -> i64
    ensures { OutletTold tape.now arena.old arena.new class into.old result into.new }
{
    match find_recorded(tape, arena, class, into) {
        Ok(Some(length)) => length as i64,
        Ok(None) => NO_SUCH_CLASS,
        Err(fault) => told(fault) as i64,
    }
}
