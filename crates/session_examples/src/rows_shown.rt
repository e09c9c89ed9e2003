//! Rows that are shown and rows that are refused, one after another.
use crate::exchange::Due::{Bytes, End, Failed, Integer, Null, Opened, Refused, Row};
use crate::exchange::first_other;
use crate::recorded::Field::{Held, Lost, Null as NullField};
use crate::recorded::{Event, tape_of};
use mysql::MysqlType;
use play::Call::{Fetch, Open, Read, ReadBigInt, ReadInteger, ReadTime};
use std::test::Fail;
use tape_host::Tape;

const TEXT: MysqlType = MysqlType::String;

#[test]
fn eight_letters_need_twelve_bytes(rt: HostRuntime) -> Result<(), Fail> {
    let tape = tape_of(
        rt.alloc(),
        &[(3, 0), (253, 0)],
        &[
            Event::Row(&[Held(b"\x01\0\0\0"), Held(b"eightlet")]),
            Event::Row(&[Held(b"\x02\0\0\0"), Held(b"nineletrs")]),
            Event::Row(&[Held(b"\x03\0\0\0"), Held(b"EIGHTLET")]),
        ],
    )?;
    let calls = [
        (Open(&[]), Opened),
        (Fetch, Row),
        (Read(0), Bytes(MysqlType::Long, b"\x01\0\0\0")),
        (Read(1), Bytes(TEXT, b"eightlet")),
        (Fetch, Refused(11, 255)),
        (Read(1), Refused(5, 255)),
        (Fetch, Row),
        (ReadInteger(0), Integer(3)),
        (Read(1), Bytes(TEXT, b"EIGHTLET")),
        (Fetch, End),
    ];
    assert_eq!(rt;
        first_other(rt.alloc(), Tape::new(&tape)?, 12, &calls)?,
        None
    );
    Ok(())
}

#[test]
fn two_texts_in_ten_bytes(rt: HostRuntime) -> Result<(), Fail> {
    let tape = tape_of(
        rt.alloc(),
        &[(253, 0), (253, 0)],
        &[
            Event::Row(&[Held(b"eightlet"), Held(b"a")]),
            Event::Row(&[Held(b"b"), Held(b"nineletrs")]),
            Event::Row(&[Held(b""), Held(b"ten letter")]),
            Event::Row(&[NullField, Held(b"ten letter")]),
            Event::Row(&[NullField, Held(b"NINELETRS")]),
        ],
    )?;
    let calls = [
        (Open(&[]), Opened),
        (Fetch, Row),
        (Read(0), Bytes(TEXT, b"eightlet")),
        (Read(1), Bytes(TEXT, b"a")),
        (Fetch, Row),
        (Read(0), Bytes(TEXT, b"b")),
        (Read(1), Bytes(TEXT, b"nineletrs")),
        (Fetch, Refused(11, 255)),
        (Fetch, Refused(11, 255)),
        (Fetch, Row),
        (Read(0), Null),
        (Read(1), Bytes(TEXT, b"NINELETRS")),
    ];
    assert_eq!(rt;
        first_other(rt.alloc(), Tape::new(&tape)?, 10, &calls)?,
        None
    );
    Ok(())
}

/// Three texts in fourteen bytes: two go right, two go left, one goes right and one left, one left and one right, and one goes left behind a null.
#[test]
fn texts_that_move(rt: HostRuntime) -> Result<(), Fail> {
    let tape = tape_of(
        rt.alloc(),
        &[(253, 0), (253, 0), (253, 0)],
        &[
            Event::Row(&[Held(b"a"), Held(b"eightlet"), Held(b"four")]),
            Event::Row(&[Held(b"bc"), Held(b"EIGHTLET"), Held(b"FOUR")]),
            Event::Row(&[Held(b"d"), Held(b"8letters"), Held(b"fives")]),
            Event::Row(&[Held(b"ef"), Held(b"4444"), Held(b"8LETTERS")]),
            Event::Row(&[Held(b"g"), Held(b"7seven7"), Held(b"6SIXES")]),
            Event::Row(&[Held(b"h"), NullField, Held(b"twelve bytes")]),
        ],
    )?;
    let calls = [
        (Open(&[]), Opened),
        (Fetch, Row),
        (Fetch, Row),
        (Read(0), Bytes(TEXT, b"bc")),
        (Read(1), Bytes(TEXT, b"EIGHTLET")),
        (Read(2), Bytes(TEXT, b"FOUR")),
        (Fetch, Row),
        (Read(1), Bytes(TEXT, b"8letters")),
        (Read(2), Bytes(TEXT, b"fives")),
        (Fetch, Row),
        (Read(0), Bytes(TEXT, b"ef")),
        (Read(1), Bytes(TEXT, b"4444")),
        (Read(2), Bytes(TEXT, b"8LETTERS")),
        (Fetch, Row),
        (Read(1), Bytes(TEXT, b"7seven7")),
        (Read(2), Bytes(TEXT, b"6SIXES")),
        (Fetch, Row),
        (Read(0), Bytes(TEXT, b"h")),
        (Read(1), Null),
        (Read(2), Bytes(TEXT, b"twelve bytes")),
    ];
    assert_eq!(rt;
        first_other(rt.alloc(), Tape::new(&tape)?, 14, &calls)?,
        None
    );
    Ok(())
}

/// Nulls, and a failure, between rows of long and short texts.
#[test]
fn nulls_and_failures_between_texts(rt: HostRuntime) -> Result<(), Fail> {
    let tape = tape_of(
        rt.alloc(),
        &[(253, 0), (252, 128)],
        &[
            Event::Row(&[Held(b"the first long text of all"), Held(b"x")]),
            Event::Row(&[NullField, NullField]),
            Event::Failure(1213),
            Event::Row(&[Held(b"s"), Held(b"")]),
            Event::Failure(2013),
            Event::Row(&[Held(b"and the last long text of all"), NullField]),
        ],
    )?;
    let calls = [
        (Open(&[]), Opened),
        (Read(0), Refused(5, 255)),
        (Read(2), Refused(4, 255)),
        (Fetch, Row),
        (Read(0), Bytes(TEXT, b"the first long text of all")),
        (Read(0), Bytes(TEXT, b"the first long text of all")),
        (Read(1), Bytes(MysqlType::Blob, b"x")),
        (Fetch, Row),
        (Read(0), Null),
        (ReadBigInt(1), Refused(13, 1)),
        (ReadTime(0), Refused(13, 0)),
        (Fetch, Failed(1213, 3)),
        (Read(0), Refused(5, 255)),
        (ReadInteger(0), Refused(5, 255)),
        (Fetch, Row),
        (Read(0), Bytes(TEXT, b"s")),
        (Read(1), Bytes(MysqlType::Blob, b"")),
        (ReadInteger(0), Refused(14, 0)),
        (Fetch, Failed(2013, 8)),
        (Open(&[]), Refused(2, 255)),
        (Fetch, Row),
        (Open(&[]), Refused(2, 255)),
        (Read(0), Bytes(TEXT, b"and the last long text of all")),
        (Read(1), Null),
        (Read(2), Refused(4, 255)),
        (Fetch, End),
        (Read(0), Refused(5, 255)),
        (Fetch, End),
    ];
    assert_eq!(rt;
        first_other(rt.alloc(), Tape::new(&tape)?, 40, &calls)?,
        None
    );
    Ok(())
}

/// A row that loses a figure and has no room is refused with 10, with the lowest column that lost one.
#[test]
fn a_lost_figure_comes_first(rt: HostRuntime) -> Result<(), Fail> {
    let tape = tape_of(
        rt.alloc(),
        &[(253, 0), (1, 0), (1, 0)],
        &[
            Event::Row(&[Held(b"far too long"), Lost(b"\x7f"), Lost(b"\x80")]),
            Event::Row(&[Held(b"fits"), Held(b"\x7f"), Lost(b"\x80")]),
            Event::Row(&[Held(b"fits"), Held(b"\x7f"), Held(b"\x80")]),
        ],
    )?;
    let calls = [
        (Open(&[]), Opened),
        (Fetch, Refused(10, 1)),
        (Fetch, Refused(10, 2)),
        (Fetch, Row),
        (Read(0), Bytes(TEXT, b"fits")),
        (ReadInteger(1), Integer(127)),
        (ReadInteger(2), Integer(-128)),
    ];
    assert_eq!(rt;
        first_other(rt.alloc(), Tape::new(&tape)?, 6, &calls)?,
        None
    );
    Ok(())
}
