//! Answers and lines that are kept.
use class_list::{Line, LoadError, Loaded, load};
use mysql::MysqlType;
use play::Call::{Fetch, Open, Read};
use play::{Answer, Played, play};
use std::test::Fail;
use tape_host::Tape;

/// Three columns, and three events: class 1 with an outlet and a diameter, class 2 without an outlet, and failure 2013.
const CLASS_LIST: &[u8] = b"\x03\0\x03\0\
    \x03\x01\x80\0\0\xfd\x01\x10\0\0\x02\x21\x80\0\0\
    \0\x01\x04\0\0\0\x01\0\0\0\x01\x05\0\0\0Juice\x01\x02\0\0\0\xe0\x01\
    \0\x01\x04\0\0\0\x02\0\0\0\0\x01\x02\0\0\0\xf4\x01\
    \x01\xdd\x07";

/// Whether this is the answer to call k of the test below.
fn is_answer(k: usize, answer: &Answer<Vec<u8>>) -> bool {
    match (k, answer) {
        (0, Answer::Opened) | (1 | 4, Answer::Row) | (5, Answer::Null) => true,
        (2 | 3, Answer::Bytes(MysqlType::String, bytes)) => bytes.as_slice() == b"Juice".as_slice(),
        (6, Answer::Refused(fault)) => fault.number() == 9,
        _ => false,
    }
}

#[test]
fn answers_of_a_list_of_calls(rt: HostRuntime) -> Result<(), Fail> {
    let calls = [Open(&[]), Fetch, Read(1), Read(1), Fetch, Read(1), Fetch];
    let Played {
        host: _,
        answers,
        ended,
    } = play(rt.alloc(), Tape::new(CLASS_LIST)?, &mut [7; 24], &calls);
    assert!(rt;
        answers
            .iter()
            .enumerate()
            .all(|(k, answer)| is_answer(k, answer))
    );
    assert_eq!(rt; ended.is_ok(), answers.len() == calls.len());
    Ok(())
}

/// Whether this is line k of the class list.
fn is_line(k: usize, line: &Line) -> bool {
    match (k, line) {
        (0, Line::Row(row)) => {
            matches!(&row.outlet, Ok(Some(outlet)) if outlet.as_slice() == b"Juice".as_slice())
        }
        (1, Line::Row(row)) => matches!(&row.outlet, Ok(None)),
        (2, Line::Failed(fault)) => fault.number() == 9,
        _ => false,
    }
}

#[test]
fn lines_of_a_class_list(rt: HostRuntime) -> Result<(), Fail> {
    let Loaded {
        host: _,
        lines,
        outcome,
    } = load(rt.alloc(), Tape::new(CLASS_LIST)?, &mut [7; 24], &[]);
    assert!(rt; lines.iter().enumerate().all(|(k, line)| is_line(k, line)));
    match outcome {
        Ok(()) => assert_eq!(rt; lines.len(), 3),
        Err(LoadError::OutOfMemory) => assert!(rt; lines.len() < 3),
        Err(LoadError::NotListed(_)) => assert!(rt; false, "the list can be opened"),
    }
    Ok(())
}
