//! The rows of a tray, as docs/host.md makes them, through a session; and a tape and a tray whose next rows are alike.
use crate::exchange::Due::{Bytes, End, Failed, Null, Opened, Refused, Row};
use crate::exchange::{Checker, asked};
use crate::recorded::Field::{Held, Null as NullField};
use crate::recorded::{Event, head_of, push_event};
use mysql::MysqlType;
use play::Call::{Fetch, Open, Read, ReadInteger};
use play::play_both;
use rows::Fetch as Fetched;
use session::Session;
use std::alloc::{AllocError, Global};
use std::test::Fail;
use tape_host::Tape;
use tray::Tray;

/// The bytes of row k, which is not null.
fn row_of(heap: Global, k: usize) -> Result<Vec<u8>, AllocError> {
    let mut bytes = Vec::new(heap);
    for j in 0..37 * (k % 200) % 200 {
        bytes.push(((k % 256 + j) % 256) as u8)?;
    }
    Ok(bytes)
}

#[test]
fn two_hundred_rows(rt: HostRuntime) -> Result<(), Fail> {
    let mut arena = [0u8; 199];
    let mut session = Session::new(Tray::new(200));
    let slip = session.open(&mut arena, &[]).expect(&rt, "an opening");
    for k in 1..201usize {
        let bytes = row_of(rt.alloc(), k).expect(&rt, "memory");
        assert!(rt;
            matches!(session.fetch(&mut arena), Ok(Fetched::Row)),
            "row {k}"
        );
        let shown = session.read(&arena, 0).expect(&rt, "a reading");
        let is_as_made = match shown {
            Some(shown) => k % 5 != 3 && shown.value().as_bytes() == bytes.as_slice(),
            None => k % 5 == 3,
        };
        assert!(rt; is_as_made, "row {k}");
    }
    assert!(rt;
        matches!(session.fetch(&mut arena), Ok(Fetched::End)),
        "there is no row 201"
    );
    let _tray = session.close(Some(slip));
    Ok(())
}

/// A tape of one text column: a row, a failure, a row with this text, and a null.
fn tape_with(heap: Global, text: &[u8]) -> Result<Vec<u8>, AllocError> {
    let mut bytes = head_of(heap, &[(253, 0)], 4)?;
    push_event(&mut bytes, Event::Row(&[Held(b"a row of its own")]))?;
    push_event(&mut bytes, Event::Failure(2013))?;
    push_event(&mut bytes, Event::Row(&[Held(text)]))?;
    push_event(&mut bytes, Event::Row(&[NullField]))?;
    Ok(bytes)
}

#[test]
fn answers_alike(rt: HostRuntime) -> Result<(), Fail> {
    let alike = row_of(rt.alloc(), 2)?;
    let bytes = tape_with(rt.alloc(), &alike)?;
    let of_tape = [
        (Open(&[]), Opened),
        (Fetch, Row),
        (Fetch, Failed(2013, 8)),
        (Fetch, Row),
        (Read(0), Bytes(MysqlType::String, &alike)),
        (ReadInteger(0), Refused(14, 0)),
        (Fetch, Row),
        (Read(0), Null),
        (Fetch, End),
    ];
    let of_tray = [
        (Fetch, Refused(1, 255)),
        (Open(&[]), Opened),
        (Fetch, Row),
        (Fetch, Row),
        (Read(0), Bytes(MysqlType::String, &alike)),
        (ReadInteger(0), Refused(14, 0)),
        (Fetch, Row),
        (Read(0), Null),
        (Fetch, End),
    ];
    let first_calls = asked(rt.alloc(), &of_tape)?;
    let second_calls = asked(rt.alloc(), &of_tray)?;
    let mut of_first = Checker::new(&of_tape);
    let mut of_second = Checker::new(&of_tray);
    let mut first = Session::new(Tape::new(&bytes)?);
    let mut second = Session::new(Tray::new(3));
    let (first_slip, second_slip) = play_both(
        &mut first,
        &mut [1; 99],
        &first_calls,
        &mut of_first,
        &mut second,
        &mut [2; 99],
        &second_calls,
        &mut of_second,
    );
    let _tape = first.close(first_slip);
    let _tray = second.close(second_slip);
    assert_eq!(rt; of_first.right, of_tape.len());
    assert_eq!(rt; of_second.right, of_tray.len());
    Ok(())
}
