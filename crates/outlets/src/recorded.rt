//! Class lists that were recorded, as tapes.
ghost use Rattle.std.specs.Prelude.{◌≡◌, ◌^◌, ◌<◌, IfOk, IfSome};
ghost use Rattle.outlets.specs.Recorded.{RecordedCounts, RecordedOutlet};

use crate::count::{RowCounts, count_rows};
use crate::find::find_outlet;
use mysql::Fault;
use tape_host::Tape;

/// Counts the rows of a tape that a session over this arena shows.
pub fn count_recorded(tape: &[u8], arena: &mut [u8]) -> Result<RowCounts, Fault>
    ensures { RecordedCounts tape.now arena.old arena.new result }
{
    count_rows(Tape::new(tape)?, arena)
}

/// Copies the outlet of a class of a tape, and answers its length.
pub fn find_recorded(
    tape: &[u8],
    arena: &mut [u8],
    class: i32,
    into: &mut [u8],
) -> Result<Option<usize>, Fault>
    ensures found { RecordedOutlet tape.now arena.old arena.new class into.old result into.new }
    ensures small { IfOk result (λ found. IfSome found (λ n. n < 2 ^ 63)) }
{
    find_outlet(Tape::new(tape)?, arena, class, into)
}

#[cfg(test)]
mod tests {
    use super::*;
    use crate::size::tape_size;
    use std::test::Fail;

    /// A class and its outlet, of three rows. The second lost a figure of its class, beside an outlet for which the places have to grow.
    const TAPE: &[u8] = b"\x02\0\x03\0\x03\0\0\0\0\xfd\0\0\0\0\
        \0\x01\x04\0\0\0\x05\0\0\0\x01\x05\0\0\0Shops\
        \0\x02\x04\0\0\0\x06\0\0\0\x01\x0d\0\0\0Juice press 2\
        \0\x01\x04\0\0\0\x07\0\0\0\x01\x06\0\0\0Export";

    #[test]
    fn class_after_a_refused_row_has_its_own_outlet(rt: HostRuntime) -> Result<(), Fail> {
        let size = tape_size(TAPE)?;
        assert_eq!(rt; (size.columns, size.events), (2, 3));
        let mut arena = [0; 32];
        let mut outlet = *b"--------";
        assert_eq!(rt; find_recorded(TAPE, &mut arena, 7, &mut outlet)?, Some(6));
        assert_eq!(rt; outlet, *b"Export--");
        assert_eq!(rt; find_recorded(TAPE, &mut arena, 6, &mut outlet)?, None);
        let counts = count_recorded(TAPE, &mut arena)?;
        assert_eq!(rt; (counts.shown, counts.refused, counts.failures), (2, 1, 0));
        Ok(())
    }
}
