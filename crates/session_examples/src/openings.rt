//! Openings, by the checks of docs/session.md in their order.
use crate::exchange::Due::{self, End, Failed, Opened, Refused, Row};
use crate::exchange::first_other;
use crate::recorded::{Event, tape_of};
use mysql::MysqlType;
use play::Call::{Fetch, Open, Read};
use std::test::Fail;
use tape_host::Tape;

/// Columns by code and flags, wanted types, the arena's length, and what an opening answers.
type Opening = (
    &'static [(u8, u32)],
    &'static [Option<MysqlType>],
    usize,
    Due<'static>,
);

const OPENINGS: [Opening; 20] = [
    // two texts take a byte each
    (&[(253, 0), (253, 0)], &[], 2, Opened),
    (&[(253, 0), (253, 0)], &[], 1, Refused(8, 255)),
    (&[], &[], 0, Opened),
    (&[(3, 0)], &[], 65536, Opened),
    (&[(3, 0)], &[], 65537, Refused(3, 255)),
    // flags that are known, and not
    (&[(253, 0x7C3F_FFFF)], &[], 9, Opened),
    (&[(3, 0), (253, 0x0040_0000)], &[], 9, Refused(7, 1)),
    (
        &[(3, 0x8000_0000), (253, 0x0040_0000)],
        &[None],
        9,
        Refused(7, 0),
    ),
    (
        &[(253, 0x0040_0000)],
        &[Some(MysqlType::String)],
        9,
        Refused(7, 0),
    ),
    // Double keeps no code, and asks for 5: these flags are not looked at
    (&[(5, 0x0040_0000)], &[Some(MysqlType::Double)], 9, Opened),
    // 246 is kept for Tiny; a tape carries a column's own code only
    (&[(246, 0)], &[Some(MysqlType::Tiny)], 9, Opened),
    (&[(246, 0)], &[Some(MysqlType::Double)], 9, Failed(2036, 8)),
    (&[(253, 0)], &[Some(MysqlType::Blob)], 9, Failed(2036, 8)),
    (&[(252, 128)], &[Some(MysqlType::Blob)], 9, Opened),
    // 3 before 7 before 8 before 9
    (&[(253, 0x0040_0000)], &[], 65537, Refused(3, 255)),
    (&[(5, 0), (253, 0x0040_0000)], &[], 1, Refused(7, 1)),
    (&[(246, 0)], &[Some(MysqlType::Double)], 7, Refused(8, 255)),
    // fewer wanted types than columns, and more
    (&[(3, 0), (253, 0)], &[Some(MysqlType::Long)], 9, Opened),
    (&[(3, 0)], &[None, Some(MysqlType::Double)], 9, Opened),
    (&[], &[Some(MysqlType::Double)], 9, Opened),
];

#[test]
fn openings(rt: HostRuntime) -> Result<(), Fail> {
    for (i, (columns, wanted, room, due)) in OPENINGS.iter().enumerate() {
        let tape = tape_of(rt.alloc(), columns, &[])?;
        let fetched = match due {
            Opened => End,
            _ => Refused(1, 255),
        };
        assert_eq!(rt;
            first_other(
                rt.alloc(),
                Tape::new(&tape)?,
                *room,
                &[
                    (Fetch, Refused(1, 255)),
                    (Open(wanted), *due),
                    (Fetch, fetched)
                ],
            )?,
            None,
            "opening {i}"
        );
    }
    Ok(())
}

#[test]
fn no_columns(rt: HostRuntime) -> Result<(), Fail> {
    let tape = tape_of(rt.alloc(), &[], &[Event::Row(&[])])?;
    let calls = [
        (Read(0), Refused(1, 255)),
        (Open(&[]), Opened),
        (Open(&[]), Refused(2, 255)),
        (Read(0), Refused(4, 255)),
        (Fetch, Row),
        (Read(0), Refused(4, 255)),
        (Fetch, End),
        (Fetch, End),
    ];
    assert_eq!(rt;
        first_other(rt.alloc(), Tape::new(&tape)?, 0, &calls)?,
        None
    );
    Ok(())
}
