//! A tape through a host's calls: every refusal with its number, places that are too short, exact and wide, and counts over both hosts.
//! What a fetch answers is compared by its number, which is that of MySQL's C API.
use host::{BindRecord, Fetched, Host, Report};
use std::test::Fail;
use tally::{Totals, tally};
use tape_host::Tape;
use tray::Tray;

/// A short number without sign and a text; a row with a lost figure and "hello", failure 1213, and a row of nulls.
const TWO: &[u8] =
    b"\x02\x00\x03\x00\x02\x20\x00\x00\x00\xfd\x00\x00\x00\x00\x00\x02\x02\x00\x00\x00\xff\xff\x01\x05\x00\x00\x00hello\x01\xbd\x04\x00\x00\x00";

/// No columns, and one row.
const NO_COLUMNS: &[u8] = b"\x00\x00\x01\x00\x00";

/// A record.
fn place(code: u8, start: usize, capacity: usize) -> BindRecord {
    BindRecord {
        code,
        start,
        capacity,
        ..BindRecord::default()
    }
}

#[test]
fn binds(rt: HostRuntime) -> Result<(), Fail> {
    let mut tape = Tape::new(TWO)?;
    assert!(rt; tape.column_count() == 2 && tape.column(1).code == 253 && tape.column(2).code == 6);
    assert!(rt; !tape.bind(&[place(2, 0, 2)]) && tape.error_number() == 2034);
    assert!(rt; !tape.bind(&[place(2, 0, 2), place(253, 1, 5)]) && tape.error_number() == 2034);
    assert!(rt; !tape.bind(&[place(2, 0, 2), place(252, 2, 5)]) && tape.error_number() == 2036);
    assert!(rt; !tape.can_fetch(7, 2));
    assert!(rt; tape.bind(&[place(2, 0, 2), place(253, 2, 5)]) && tape.error_number() == 0);
    assert!(rt; tape.can_fetch(7, 2) && !tape.can_fetch(6, 2) && !tape.can_fetch(7, 1));
    assert!(rt;
        tape.bind(&[place(2, 0, 2), place(253, 2, usize::MAX)]) && !tape.can_fetch(usize::MAX, 2)
    );
    Ok(())
}

#[test]
fn fetches(rt: HostRuntime) -> Result<(), Fail> {
    let mut tape = Tape::new(TWO)?;
    let mut arena = [9u8; 8];
    let mut reports = [Report::default(); 2];
    assert!(rt; tape.fetch(&mut arena, &mut reports).number() == 1 && tape.error_number() == 2034);
    assert!(rt; tape.bind(&[place(2, 0, 2), place(253, 2, 5)]));
    assert!(rt;
        tape.fetch(&mut arena, &mut reports).number() == 101,
        "a figure was lost"
    );
    assert!(rt;
        &arena == b"\xff\xffhello\x09" && reports[0].is_truncated && !reports[1].is_truncated
    );
    assert!(rt; tape.fetch(&mut arena, &mut reports).number() == 1 && tape.error_number() == 1213);
    assert!(rt; tape.fetch(&mut arena, &mut reports).number() == 0 && tape.error_number() == 0);
    assert!(rt; reports[0].is_null && reports[1].is_null && !reports[0].is_truncated);
    assert!(rt;
        tape.fetch(&mut arena, &mut reports).number() == 100,
        "there is no event 4"
    );
    Ok(())
}

#[test]
fn columns(rt: HostRuntime) -> Result<(), Fail> {
    let mut tape = Tape::new(TWO)?;
    let mut part = [0u8; 2];
    let mut report = Report::default();
    assert!(rt; !tape.fetch_column(1, 0, &mut part, &mut report) && tape.error_number() == 2051);
    assert!(rt; tape.bind(&[place(2, 0, 2), place(253, 2, 3)]));
    assert!(rt;
        tape.fetch(&mut [0; 5], &mut [Report::default(); 2])
            .number()
            == 101
    );
    assert!(rt; !tape.fetch_column(2, 0, &mut part, &mut report) && tape.error_number() == 2034);
    assert!(rt; tape.fetch_column(1, 3, &mut part, &mut report) && &part == b"lo");
    assert!(rt; !report.is_truncated && report.length == 5);
    assert!(rt; tape.fetch_column(1, 0, &mut part, &mut report) && report.is_truncated);
    assert!(rt; tape.fetch_column(1, 5, &mut [], &mut report) && !report.is_truncated);
    assert!(rt; tape.fetch_column(1, usize::MAX, &mut [], &mut report) && !report.is_truncated);
    assert!(rt; tape.fetch_column(0, 2, &mut [], &mut report) && report.is_truncated);
    tape.free();
    assert!(rt; !tape.fetch_column(1, 0, &mut part, &mut report) && tape.error_number() == 2051);
    assert!(rt; !tape.can_fetch(5, 2) && tape.column_count() == 2);
    Ok(())
}

#[test]
fn no_columns(rt: HostRuntime) -> Result<(), Fail> {
    let mut tape = Tape::new(NO_COLUMNS)?;
    assert!(rt; tape.bind(&[]) && tape.fetch(&mut [], &mut []).number() == 0);
    assert!(rt; tape.fetch(&mut [], &mut []).number() == 100);
    Ok(())
}

#[test]
fn counts(rt: HostRuntime) -> Result<(), Fail> {
    let mut tray = Tray::new(5);
    let mut tape = Tape::new(TWO)?;
    let of_tray = Totals {
        rows: 5,
        failures: 0,
        nulls: 1,
        bytes: 444,
    };
    let of_tape = Totals {
        rows: 2,
        failures: 1,
        nulls: 2,
        bytes: 7,
    };
    assert!(rt; tally(&mut tray).ok_or("no count of the tray")? == of_tray);
    assert!(rt; tally(&mut tape).ok_or("no count of the tape")? == of_tape);
    assert!(rt;
        tape.fetch(&mut [], &mut [Report::default(); 2]).number() == 100,
        "the count fetched all"
    );
    Ok(())
}
