//! Hosts that are freed in each of their states, and nulls behind texts that were too long for their place.
use host::{BindRecord, Host, Report};
use std::test::Fail;
use tape_host::Tape;
use tray::Tray;

/// The example of docs/tape.md: one text column; a row with "hi", failure 7, and a row with a null.
const HI: &[u8] =
    b"\x01\x00\x03\x00\xfd\x00\x00\x00\x00\x00\x01\x02\x00\x00\x00hi\x01\x07\x00\x00\x00";

/// One text column; a row with "a long text", one with a null, and one with "s".
const LONG: &[u8] =
    b"\x01\x00\x03\x00\xfd\x00\x00\x00\x00\x00\x01\x0b\x00\x00\x00a long text\x00\x00\x00\x01\x01\x00\x00\x00s";

/// A place at the front of the arena, for a text.
fn text_of(capacity: usize) -> BindRecord {
    BindRecord {
        code: 253,
        capacity,
        ..BindRecord::default()
    }
}

/// Whether a host of one text column has nothing left once it is freed.
fn is_freed<H: Host + Drop>(mut host: H) -> bool {
    host.free();
    host.error_number() == 0
        && host.column_count() == 1
        && !host.can_fetch(9, 1)
        && !host.fetch_column(0, 0, &mut [], &mut Report::default())
        && host.error_number() == 2051
        && host.bind(&[text_of(9)])
        && host.fetch(&mut [0; 9], &mut [Report::default()]).number() == 100
}

/// Whether this is so of a new host, of a bound one, and after each of so many fetches.
fn is_freed_always<H: Host + Copy>(mut host: H, fetches: usize) -> bool {
    let new = is_freed(host);
    let _ = host.bind(&[text_of(9)]);
    let mut all = new && is_freed(host);
    for _ in 0..fetches {
        let _ = host.fetch(&mut [0; 9], &mut [Report::default()]);
        all = all && is_freed(host);
    }
    all
}

#[test]
fn freed_in_each_state(rt: HostRuntime) -> Result<(), Fail> {
    // each row, a failure, a null, and the end
    assert!(rt; is_freed_always(Tape::new(HI)?, 4) && is_freed_always(Tray::new(3), 4));
    Ok(())
}

#[test]
fn nulls_behind_long_texts(rt: HostRuntime) -> Result<(), Fail> {
    let mut tape = Tape::new(LONG)?;
    let mut arena = [9u8; 5];
    let mut reports = [Report::default()];
    let mut report = Report::default();
    assert!(rt; tape.bind(&[text_of(4)]));
    assert!(rt; tape.fetch(&mut arena, &mut reports).number() == 101 && &arena == b"a lo\x09");
    assert!(rt; tape.fetch(&mut arena, &mut reports).number() == 0 && arena[4] == 9);
    assert!(rt; reports[0].is_null && !reports[0].is_truncated);
    for offset in [0, 4, 5, usize::MAX] {
        assert!(rt; tape.fetch_column(0, offset, &mut [], &mut report) && report.is_null);
        assert!(rt;
            !report.is_truncated && tape.error_number() == 0,
            "at {offset}"
        );
    }
    assert!(rt; tape.fetch(&mut arena, &mut reports).number() == 0 && arena[0] == b's');
    assert!(rt; reports[0].length == 1 && !reports[0].is_null && !reports[0].is_truncated);
    Ok(())
}
