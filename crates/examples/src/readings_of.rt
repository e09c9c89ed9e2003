//! Readings at their edges: examples from the rules, RFC 3629's table, and doubles by their IEEE 754 patterns.
use crate::refusal::refusal_of;
use mysql::{Fault, MysqlType};
use readings::{FromSql, MysqlTime, MysqlValue, from_nullable_sql};
use std::test::Fail;

/// A text, and the i64 that it reads as, or a refusal's number.
const TEXTS: [(&[u8], Result<i64, u8>); 15] = [
    (b"-12.99", Ok(-12)),
    (b"12.x", Ok(12)),
    (b".5", Err(21)),
    (b"1.2.3", Err(20)),
    (b"+5", Ok(5)),
    (b"-0", Ok(0)),
    (b"", Err(21)),
    (b"-", Err(21)),
    (b"1.", Ok(1)),
    (b"000000000000000000000000000000007", Ok(7)),
    (b"9223372036854775807", Ok(9223372036854775807)),
    (b"9223372036854775808", Err(21)),
    (b"-9223372036854775808", Ok(-9223372036854775808)),
    (b"-9223372036854775809", Err(21)),
    (b"1.\xff", Err(19)),
];

/// A double's pattern, and the i64 that it reads as, or a refusal's number.
const DOUBLES: [(u64, Result<i64, u8>); 12] = [
    (0x43E0_0000_0000_0000, Ok(9223372036854775807)), // 2^63
    (0x43DF_FFFF_FFFF_FFFF, Ok(9223372036854774784)), // the next below it
    (0x43E0_0000_0000_0001, Err(18)), // the next above it
    (0xC3E0_0000_0000_0000, Ok(-9223372036854775808)), // -2^63
    (0xC3E0_0000_0000_0001, Err(18)), // the next below that
    (0x8000_0000_0000_0000, Ok(0)), // -0.0
    (0xBFEC_CCCC_CCCC_CCCD, Ok(0)), // -0.9
    (0x0000_0000_0000_0001, Ok(0)), // the smallest subnormal
    (0x7FF0_0000_0000_0000, Err(18)), // infinity
    (0xFFF0_0000_0000_0000, Err(18)), // -infinity
    (0x7FF8_0000_0000_0000, Err(18)), // not a number
    (0xFFF0_0000_0000_0001, Err(18)), // not a number, with the sign set
];

/// Bytes, and whether they are UTF-8: each row of the table of RFC 3629 at its ends and one past them.
const SEQUENCES: [(&[u8], bool); 22] = [
    (b"\x7f", true),
    (b"\x80", false),
    (b"\xc1\xbf", false),
    (b"\xc2\x80", true),
    (b"\xdf\xbf", true),
    (b"\xdf\xc0", false),
    (b"\xe0\x9f\xbf", false),
    (b"\xe0\xa0\x80", true),
    (b"\xec\xbf\xbf", true),
    (b"\xed\x9f\xbf", true),
    (b"\xed\xa0\x80", false),
    (b"\xee\x80\x80", true),
    (b"\xef\xbf\xbf", true),
    (b"\xef\xbf", false),
    (b"\xf0\x8f\xbf\xbf", false),
    (b"\xf0\x90\x80\x80", true),
    (b"\xf3\xbf\xbf\xbf", true),
    (b"\xf4\x8f\xbf\xbf", true),
    (b"\xf4\x90\x80\x80", false),
    (b"\xf5\x80\x80\x80", false),
    (b"\xf4\x8f\xbf", false),
    (b"\xf4\x8f\xbf\xc0", false),
];

/// A value, or a refusal's number.
fn told(answer: Result<i64, Fault>) -> Result<i64, u8> {
    answer.map_err(|fault| fault.number())
}

#[test]
fn numeric_texts(rt: HostRuntime) {
    for (text, wanted) in TEXTS {
        assert_eq!(rt;
            told(i64::from_sql(&MysqlValue::new(text, MysqlType::Numeric))),
            wanted
        );
    }
    let past = MysqlValue::new(b"2147483648", MysqlType::Numeric);
    assert_eq!(rt; refusal_of(i32::from_sql(&past)), Some(21));
}

#[test]
fn doubles(rt: HostRuntime) {
    for (bits, wanted) in DOUBLES {
        let bytes = bits.to_le_bytes();
        assert_eq!(rt;
            told(i64::from_sql(&MysqlValue::new(&bytes, MysqlType::Double))),
            wanted
        );
    }
    let top = 0x43E0_0000_0000_0000u64.to_le_bytes();
    assert_eq!(rt;
        refusal_of(i32::from_sql(&MysqlValue::new(&top, MysqlType::Double))),
        Some(18)
    );
}

#[test]
fn sequences(rt: HostRuntime) {
    for (bytes, valid) in SEQUENCES {
        let answer = i32::from_sql(&MysqlValue::new(bytes, MysqlType::Numeric));
        assert_eq!(rt; refusal_of(answer) != Some(19), valid);
    }
}

#[test]
fn widths_and_types(rt: HostRuntime) {
    let bytes = [0xff, 0xff, 0xff, 0xff, 1];
    assert_eq!(rt;
        told(i64::from_sql(&MysqlValue::new(&bytes, MysqlType::Long))),
        Ok(-1)
    );
    assert_eq!(rt;
        told(i64::from_sql(&MysqlValue::new(&bytes, MysqlType::UnsignedLong))),
        Ok(4294967295)
    );
    assert_eq!(rt;
        told(i64::from_sql(&MysqlValue::new(&bytes, MysqlType::LongLong))),
        Err(15)
    );
    assert_eq!(rt;
        told(i64::from_sql(&MysqlValue::new(&bytes, MysqlType::String))),
        Err(14)
    );
    assert_eq!(rt; nullable(&bytes, false), Ok(-1));
    assert_eq!(rt; nullable(&bytes, true), Err(13));
}

/// The reading of a value that is null or not.
fn nullable(bytes: &[u8], null: bool) -> Result<i64, u8> {
    let value = MysqlValue::new(bytes, MysqlType::Long);
    told(from_nullable_sql((!null).then_some(value)))
}

#[test]
fn times(rt: HostRuntime) -> Result<(), Fail> {
    let mut raw = [0u8; 49];
    raw[0] = 0xea;
    raw[1] = 7;
    raw[33] = 9;
    raw[47] = 9;
    let time = MysqlTime::from_sql(&MysqlValue::new(&raw[0..48], MysqlType::Date))?;
    assert!(rt; time.year == 2026 && time.month == 0 && !time.neg);
    assert!(rt; MysqlTime::from_sql(&MysqlValue::new(&raw, MysqlType::Timestamp)).is_ok());
    assert_eq!(rt;
        refusal_of(MysqlTime::from_sql(&MysqlValue::new(&raw[0..47], MysqlType::Time))),
        Some(15)
    );
    assert_eq!(rt;
        refusal_of(MysqlTime::from_sql(&MysqlValue::new(&raw, MysqlType::Long))),
        Some(14)
    );
    assert_eq!(rt; with_sign(0), None);
    assert_eq!(rt; with_sign(1), Some(17));
    assert_eq!(rt; with_sign(2), Some(16));
    assert_eq!(rt; with_sign(255), Some(16));
    Ok(())
}

/// What is refused of a time whose byte 32 is this.
fn with_sign(sign: u8) -> Option<u8> {
    let mut raw = [0u8; 48];
    raw[32] = sign;
    refusal_of(MysqlTime::from_sql(&MysqlValue::new(&raw, MysqlType::DateTime)))
}
