//! Types and typed readings of what a session shows. (Refusal 15 cannot come: every code that reads as a number of bytes, or as a time, has its size.)
use crate::exchange::Due::{BigInt, Bytes, Integer, Null, Opened, Refused, Row, Year};
use crate::exchange::first_other;
use crate::recorded::Field::{Held, Null as NullField};
use crate::recorded::{Event, tape_of};
use mysql::MysqlType;
use play::Call::{Fetch, Open, Read, ReadBigInt, ReadInteger, ReadTime};
use std::alloc::{AllocError, Global};
use std::test::Fail;
use tape_host::Tape;

#[test]
fn types(rt: HostRuntime) -> Result<(), Fail> {
    let columns = [
        (252, 128),
        (252, 0),
        (254, 256),
        (254, 2048),
        (13, 0),
        (13, 32),
        (247, 0),
    ];
    let year: &[u8] = b"\xea\x07";
    let tape = tape_of(
        rt.alloc(),
        &columns,
        &[
            Event::Row(&[
                Held(b"a"),
                Held(b"b"),
                Held(b"c"),
                Held(b"d"),
                Held(year),
                Held(year),
                Held(b"e"),
            ]),
            Event::Row(&[NullField; 7]),
        ],
    )?;
    let wanted = [Some(MysqlType::Blob), Some(MysqlType::Blob)];
    let calls = [
        (Open(&wanted), Opened),
        (Fetch, Row),
        (Read(0), Bytes(MysqlType::Blob, b"a")),
        (Read(1), Bytes(MysqlType::String, b"b")),
        (Read(2), Bytes(MysqlType::Enum, b"c")),
        (Read(3), Bytes(MysqlType::Set, b"d")),
        (Read(4), Refused(12, 4)),
        (ReadInteger(4), Refused(12, 4)),
        (Read(5), Bytes(MysqlType::UnsignedShort, year)),
        (ReadInteger(5), Integer(2026)),
        (ReadTime(5), Refused(14, 5)),
        (Read(6), Refused(12, 6)),
        (Fetch, Row),
        (Read(4), Null),
        (ReadTime(4), Refused(13, 4)),
        (Read(6), Null),
    ];
    assert_eq!(rt;
        first_other(rt.alloc(), Tape::new(&tape)?, 16, &calls)?,
        None
    );
    Ok(())
}

#[test]
fn numbers(rt: HostRuntime) -> Result<(), Fail> {
    let columns = [(5, 0), (246, 0), (246, 0), (246, 0), (246, 0), (246, 0)];
    let two_to_63 = 0x43E0_0000_0000_0000u64.to_le_bytes();
    let tape = tape_of(
        rt.alloc(),
        &columns,
        &[Event::Row(&[
            Held(&two_to_63),
            Held(b"-12.99"),
            Held(b"12.x"),
            Held(b".5"),
            Held(b"1.2.3"),
            Held(b"1.\xff"),
        ])],
    )?;
    let wanted = [None, Some(MysqlType::Tiny)];
    let calls = [
        (Open(&wanted), Opened),
        (Fetch, Row),
        (ReadBigInt(0), BigInt(9223372036854775807)),
        (ReadInteger(0), Refused(18, 0)),
        (ReadTime(0), Refused(14, 0)),
        (Read(1), Bytes(MysqlType::Numeric, b"-12.99")),
        (ReadBigInt(1), BigInt(-12)),
        (ReadInteger(2), Integer(12)),
        (ReadInteger(3), Refused(21, 3)),
        (ReadBigInt(4), Refused(20, 4)),
        (ReadBigInt(5), Refused(19, 5)),
        (ReadInteger(6), Refused(4, 255)),
    ];
    assert_eq!(rt;
        first_other(rt.alloc(), Tape::new(&tape)?, 99, &calls)?,
        None
    );
    Ok(())
}

/// A time of the year 2026, with this as its sign.
fn time_of(sign: u8) -> [u8; 48] {
    let mut time = [0; 48];
    time[0] = 0xea;
    time[1] = 7;
    time[32] = sign;
    time
}

/// A tape of a row with three times.
fn tape_of_times(heap: Global, times: &[[u8; 48]; 3]) -> Result<Vec<u8>, AllocError> {
    let fields = [Held(&times[0]), Held(&times[1]), Held(&times[2])];
    tape_of(heap, &[(7, 0), (11, 0), (12, 0)], &[Event::Row(&fields)])
}

#[test]
fn times(rt: HostRuntime) -> Result<(), Fail> {
    let times = [time_of(0), time_of(1), time_of(2)];
    let tape = tape_of_times(rt.alloc(), &times)?;
    let calls = [
        (Open(&[]), Opened),
        (Fetch, Row),
        (ReadTime(0), Year(2026)),
        (ReadTime(1), Refused(17, 1)),
        (ReadTime(2), Refused(16, 2)),
        (ReadInteger(0), Refused(14, 0)),
        (Read(1), Bytes(MysqlType::Time, &times[1])),
    ];
    assert_eq!(rt;
        first_other(rt.alloc(), Tape::new(&tape)?, 144, &calls)?,
        None
    );
    Ok(())
}
