//! Examples from the rules, and from MySQL's reference of server errors.
use crate::refusal::refusal_of;
use mysql::*;
use std::test::Fail;

/// A column of text whose flags have a bit that no flag is known for.
const STRANGE: Column = Column {
    code: 253,
    flags: 0x0040_0000,
};

#[test]
fn wanted_types(rt: HostRuntime) -> Result<(), Fail> {
    let numeric = Column {
        code: 246,
        flags: 1,
    };
    assert_eq!(rt;
        taken(Some(MysqlType::Tiny), numeric)?,
        (246, 1),
        "246 is kept for Tiny"
    );
    assert_eq!(rt;
        taken(Some(MysqlType::Double), numeric)?,
        (5, 0),
        "Double asks for 5"
    );
    assert_eq!(rt; taken(None, numeric)?, (246, 1));
    assert!(rt;
        is_kept(MysqlType::Blob, 252)
            && !is_kept(MysqlType::Blob, 253)
            && !is_kept(MysqlType::Tiny, 100)
    );
    assert_eq!(rt; kept_pairs(), 119);
    Ok(())
}

#[test]
fn blob_reads_back_as_string(rt: HostRuntime) -> Result<(), Fail> {
    assert_eq!(rt;
        <(u8, u32) as From<MysqlType>>::from(MysqlType::Blob),
        (252, 0)
    );
    assert_eq!(rt; round_trip(MysqlType::Blob)?, MysqlType::String);
    assert_eq!(rt; MysqlType::try_from((252, 128))?, MysqlType::Blob);
    assert_eq!(rt; MysqlType::try_from((13, 32))?, MysqlType::UnsignedShort);
    assert!(rt; MysqlType::try_from((13, 0)).is_err());
    Ok(())
}

#[test]
fn flags(rt: HostRuntime) -> Result<(), Fail> {
    assert_eq!(rt; known_flags(0x7C3F_FFFF)?, 0x7C3F_FFFF);
    assert_eq!(rt; refusal_of(known_flags(0x0040_0000)), Some(7));
    assert_eq!(rt; refusal_of(known_flags(0x8000_0000)), Some(7));
    assert!(rt;
        taken(None, STRANGE).is_err(),
        "its own flags are looked at"
    );
    assert_eq!(rt;
        taken(Some(MysqlType::Date), STRANGE)?,
        (10, 0),
        "its own flags are not looked at"
    );
    Ok(())
}

#[test]
fn faults(rt: HostRuntime) -> Result<(), Fail> {
    let lost = Fault::new(Refusal::NumericOverflow).at(2);
    assert!(rt; lost.number() == 10 && lost.layer().number() == 2 && lost.column() == 2);
    let broken = Fault::new(Refusal::BrokenTape).at(2);
    assert!(rt;
        broken.number() == 23 && broken.layer().number() == 1 && broken.column() == NO_COLUMN
    );
    assert!(rt; broken.host_error().is_none());
    let failed = Fault::host(1213).host_error().ok_or("no host error")?;
    assert!(rt;
        failed.number == 1213 && failed.kind.number() == 3,
        "a deadlock"
    );
    assert_eq!(rt; last_error_type(2013).number(), 8);
    Ok(())
}
