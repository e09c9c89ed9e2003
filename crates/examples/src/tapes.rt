//! The example of docs/tape.md, whole and damaged.
use std::test::Fail;
use tape::*;

/// One text column; a row with "hi", failure 7, and a row with a null.
const HI: [u8; 22] =
    *b"\x01\x00\x03\x00\xfd\x00\x00\x00\x00\x00\x01\x02\x00\x00\x00hi\x01\x07\x00\x00\x00";

/// A place, and a byte that makes the example no tape where it is put there.
const DAMAGE: [(usize, u8); 9] = [
    (0, 65), // more columns than 64
    (0, 0), // fewer columns, and so more events' bytes
    (2, 2), // bytes after the last event
    (2, 4), // an event too few
    (4, 3), // a field of another size at a fixed code
    (9, 2), // an event that is no row and no failure
    (10, 2), // a loss mark at a variable code
    (10, 3), // a field of no kind
    (18, 0), // a failure without a number
];

#[test]
fn the_example(rt: HostRuntime) -> Result<(), Fail> {
    let recording = Recording::new(&HI)?;
    let column = recording.columns().next().ok_or("no column")?;
    assert!(rt; column.code == 253 && column.flags == 0);
    assert_eq!(rt; recording.columns().count(), 1);
    assert_eq!(rt; recording.events().count(), 3);
    let mut events = recording.events();
    assert!(rt;
        matches!(
            first_field(events.next()),
            Some(Field::Held {
                bytes: b"hi",
                lost: false
            })
        )
    );
    assert!(rt; matches!(events.next(), Some(Event::Failure(7))));
    assert!(rt; matches!(first_field(events.next()), Some(Field::Null)));
    Ok(())
}

/// The first field of a row.
fn first_field(event: Option<Event>) -> Option<Field> {
    match event? {
        Event::Row(row) => row.fields().next(),
        Event::Failure(_) => None,
    }
}

#[test]
fn cut_at_every_byte(rt: HostRuntime) {
    // over lengths, and not over what stands there
    for n in 0..HI.len() {
        assert!(rt; Recording::new(&HI[0..n]).is_err(), "cut short");
    }
    assert!(rt; Recording::new(&HI).is_ok());
}

#[test]
fn damaged(rt: HostRuntime) -> Result<(), Fail> {
    for (at, byte) in DAMAGE {
        let mut bytes = HI;
        assert!(rt; at < 22);
        bytes[at] = byte;
        let Err(fault) = Recording::new(&bytes) else {
            return Err(Fail::new("a damaged tape is taken"));
        };
        assert!(rt; fault.number() == 23 && fault.layer().number() == 1 && fault.column() == 255);
    }
    Ok(())
}
