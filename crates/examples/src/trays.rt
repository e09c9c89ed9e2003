//! A tray through a host's calls: every refusal with its number, and places that are too short, exact and wide.
//! What a fetch answers is compared by its number, which is that of MySQL's C API.
use host::{BindRecord, Fetched, Host, Report, fetch_whole};
use tray::Tray;

/// A record for the one column.
fn place(code: u8, start: usize, capacity: usize) -> BindRecord {
    BindRecord {
        code,
        start,
        capacity,
        ..BindRecord::default()
    }
}

#[test]
fn binds(rt: HostRuntime) {
    let mut tray = Tray::new(3);
    assert!(rt; !tray.bind(&[]) && tray.error_number() == 2034);
    assert!(rt; !tray.bind(&[place(252, 0, 1)]) && tray.error_number() == 2036);
    assert!(rt; !tray.can_fetch(100, 1));
    assert!(rt; tray.bind(&[place(253, 1, 37)]) && tray.error_number() == 0);
    assert!(rt; tray.can_fetch(38, 1) && !tray.can_fetch(37, 1) && !tray.can_fetch(38, 2));
    assert!(rt; tray.bind(&[place(253, 1, usize::MAX)]) && !tray.can_fetch(usize::MAX, 1));
}

#[test]
fn fetches(rt: HostRuntime) {
    let mut tray = Tray::new(3);
    let mut arena = [9u8; 40];
    let mut reports = [Report::default()];
    assert!(rt; tray.fetch(&mut arena, &mut reports).number() == 1 && tray.error_number() == 2034);
    assert!(rt; tray.bind(&[place(253, 1, 37)]));
    assert!(rt;
        tray.fetch(&mut arena, &mut reports).number() == 0,
        "37 bytes fill the place"
    );
    assert!(rt; arena[0] == 9 && arena[1] == 1 && arena[37] == 37 && arena[38] == 9);
    assert!(rt;
        tray.fetch(&mut arena, &mut reports).number() == 101,
        "74 bytes do not"
    );
    assert!(rt; reports[0].length == 74 && arena[1] == 2 && arena[37] == 38 && arena[38] == 9);
    assert!(rt;
        tray.fetch(&mut arena, &mut reports).number() == 0 && reports[0].is_null,
        "row 3 is null"
    );
    assert!(rt;
        tray.fetch(&mut arena, &mut reports).number() == 100,
        "there is no row 4"
    );
}

#[test]
fn columns(rt: HostRuntime) {
    let mut tray = Tray::new(2);
    let mut part = [0u8; 10];
    let mut report = Report::default();
    assert!(rt; !tray.fetch_column(0, 0, &mut part, &mut report) && tray.error_number() == 2051);
    assert!(rt;
        fetch_whole(
            &mut tray,
            &[place(253, 0, 37)],
            &mut [0; 37],
            &mut [Report::default()],
        )
    );
    assert!(rt; !tray.fetch_column(1, 0, &mut part, &mut report) && tray.error_number() == 2034);
    assert!(rt;
        tray.fetch_column(0, 30, &mut part, &mut report) && !report.is_truncated && part[6] == 37
    );
    assert!(rt;
        tray.fetch_column(0, 26, &mut part, &mut report) && report.is_truncated && part[9] == 36
    );
    assert!(rt;
        tray.fetch_column(0, 37, &mut part, &mut report)
            && !report.is_truncated
            && report.length == 37
    );
    tray.free();
    assert!(rt; !tray.fetch_column(0, 0, &mut part, &mut report) && tray.error_number() == 2051);
}
