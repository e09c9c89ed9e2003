//! Where the columns of a session lie, and how their places grow: a place that is too short gets the value's length and the others keep theirs; where
//! that is too much for the arena, each text gets what the need counts.
use crate::exchange::is_refused;
use crate::recorded::Field::{Held, Lost, Null};
use crate::recorded::{Event, tape_of};
use rows::Fetch;
use session::Session;
use std::test::Fail;
use tape_host::Tape;

/// Two texts behind a number of four bytes: their starts and capacities.
fn places_of(session: &Session<Tape>) -> Option<[(usize, usize); 2]> {
    let first = session.column(1)?;
    let second = session.column(2)?;
    Some([
        (first.start, first.capacity),
        (second.start, second.capacity),
    ])
}

#[test]
fn places_grow(rt: HostRuntime) -> Result<(), Fail> {
    let number = Held(b"\x01\0\0\0");
    let tape = tape_of(
        rt.alloc(),
        &[(3, 0), (253, 0), (253, 0)],
        &[
            Event::Row(&[number, Held(b"five!"), Held(b"")]),
            Event::Row(&[number, Held(b"2!"), Held(b"nineletrs")]),
            Event::Row(&[number, Held(b"3!!"), Held(b"twelve bytes")]),
            Event::Row(&[number, Null, Held(b"thirteen bits")]),
            Event::Row(&[number, Null, Held(b"fifteen letters")]),
            Event::Row(&[number, Held(b""), Held(b"sixteen letters!")]),
        ],
    )?;
    let mut arena = [7u8; 20];
    let mut session = Session::new(Tape::new(&tape)?);
    assert!(rt; !session.is_opened() && session.column_count() == 0 && session.column(0).is_none());
    let slip = session.open(&mut arena, &[]).expect(&rt, "an opening");
    assert!(rt; session.is_opened() && session.column_count() == 3 && session.column(3).is_none());
    assert_eq!(rt; places_of(&session), Some([(4, 1), (5, 1)]));
    assert!(rt;
        arena == *b"\0\0\0\0\0\0\x07\x07\x07\x07\x07\x07\x07\x07\x07\x07\x07\x07\x07\x07",
        "only the places are zeroed"
    );
    let grown = [
        [(4, 5), (9, 1)],
        [(4, 5), (9, 9)],
        [(4, 3), (7, 12)],
        [(4, 3), (7, 13)],
        [(4, 1), (5, 15)],
    ];
    for (row, places) in grown.iter().enumerate() {
        assert!(rt;
            matches!(session.fetch(&mut arena), Ok(Fetch::Row)),
            "row {row}"
        );
        assert_eq!(rt; places_of(&session), Some(*places), "row {row}");
    }
    assert!(rt; is_refused(session.fetch(&mut arena), 11));
    assert_eq!(rt; places_of(&session), Some([(4, 1), (5, 15)]));
    let _tape = session.close(Some(slip));
    Ok(())
}

#[test]
fn marks(rt: HostRuntime) -> Result<(), Fail> {
    let tape = tape_of(
        rt.alloc(),
        &[(253, 0), (2, 32)],
        &[
            Event::Row(&[Held(b"hello"), Held(b"\x01\0")]),
            Event::Row(&[Held(b"eight letters and more"), Lost(b"\xff\xff")]),
            Event::Failure(2013),
        ],
    )?;
    let mut arena = [7u8; 40];
    let mut session = Session::new(Tape::new(&tape)?);
    let slip = session.open(&mut arena, &[]).expect(&rt, "an opening");
    // after an opening; after a row that was shown; after one that was refused; after a failure; after the end
    let lines = [
        (0, false, false),
        (5, false, false),
        (22, true, true),
        (22, true, true),
        (22, true, true),
    ];
    for (i, line) in lines.iter().enumerate() {
        let text = session.column(0).expect(&rt, "the first column");
        let size = session.column(1).expect(&rt, "the second column");
        assert_eq!(rt;
            (text.length, text.is_truncated, size.is_truncated),
            *line,
            "line {i}"
        );
        assert!(rt;
            !text.is_null && size.code == 2 && size.flags == 32,
            "line {i}"
        );
        assert!(rt;
            arena.iter().skip(7).all(|byte| *byte == 7),
            "line {i}: past the places"
        );
        let _ = session.fetch(&mut arena);
    }
    let _tape = session.close(Some(slip));
    Ok(())
}

/// An arena of another length is refused, and changes nothing: the row that was shown is still shown.
#[test]
fn another_arena(rt: HostRuntime) -> Result<(), Fail> {
    let row = Event::Row(&[Held(b"hello")]);
    let tape = tape_of(rt.alloc(), &[(253, 0)], &[row, row])?;
    let mut arena = [7u8; 8];
    let mut other = [7u8; 9];
    let mut session = Session::new(Tape::new(&tape)?);
    let slip = session.open(&mut arena, &[]).expect(&rt, "an opening");
    assert!(rt; matches!(session.fetch(&mut arena), Ok(Fetch::Row)));
    assert!(rt; is_refused(session.fetch(&mut other), 3));
    assert!(rt; is_refused(session.read(&other, 0), 3));
    assert!(rt; is_refused(session.read(&other, 1), 3));
    assert!(rt; is_refused(session.read_as::<i32>(&other, 0), 3));
    assert!(rt; other == [7; 9] && arena == *b"hello\x07\x07\x07");
    match session.read(&arena, 0) {
        Ok(Some(shown)) => assert!(rt; shown.value().as_bytes() == b"hello".as_slice()),
        _ => panic!(rt; "the row is not shown"),
    }
    assert!(rt;
        matches!(session.fetch(&mut arena), Ok(Fetch::Row)),
        "no event was removed"
    );
    let _tape = session.close(Some(slip));
    Ok(())
}
