//! Sessions over hosts in other states than new ones, and what closing leaves of a host.
use crate::exchange::is_refused;
use crate::recorded::Field::Held;
use crate::recorded::{Event, tape_of};
use host::{BindRecord, Host, Report};
use rows::Fetch;
use session::Session;
use std::test::Fail;
use tape_host::Tape;

/// What is left of a host whose result was let go of.
fn is_freed(mut tape: Tape) -> bool {
    tape.column_count() == 1
        && tape.error_number() == 0
        && !tape.can_fetch(9, 1)
        && !tape.fetch_column(0, 0, &mut [], &mut Report::default())
        && tape.error_number() == 2051
}

#[test]
fn closing(rt: HostRuntime) -> Result<(), Fail> {
    let row = Event::Row(&[Held(b"hello")]);
    let bytes = tape_of(rt.alloc(), &[(253, 0)], &[row, row])?;
    let mut arena = [7u8; 9];
    // a host that is bound and has a current row
    let mut used = Tape::new(&bytes)?;
    assert!(rt;
        used.bind(&[BindRecord {
            code: 253,
            capacity: 9,
            ..BindRecord::default()
        }])
    );
    assert!(rt; used.fetch(&mut arena, &mut [Report::default()]).number() == 0);
    let mut first = Session::new(used);
    let second = Session::new(used);
    let slip = first.open(&mut arena, &[]).expect(&rt, "an opening");
    assert!(rt; is_refused(first.read(&arena, 0), 5));
    assert!(rt;
        matches!(first.fetch(&mut arena), Ok(Fetch::Row)),
        "the second row"
    );
    assert!(rt; matches!(first.fetch(&mut arena), Ok(Fetch::End)));
    // the opened one is closed without its slip, and the other one with it
    let (first, second) = (first.close(None), second.close(Some(slip)));
    assert!(rt; is_freed(first) && is_freed(second));
    Ok(())
}
