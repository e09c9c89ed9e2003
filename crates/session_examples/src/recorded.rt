//! The bytes of a tape, as docs/tape.md has them, from its columns and events.
use std::alloc::{AllocError, Global};

/// What a row has in a column.
#[derive(Clone, Copy)]
pub(crate) enum Field<'a> {
    Null,
    Held(&'a [u8]),
    Lost(&'a [u8]),
}

#[derive(Clone, Copy)]
pub(crate) enum Event<'a> {
    Row(&'a [Field<'a>]),
    Failure(u16),
}

pub(crate) fn tape_of(
    heap: Global,
    columns: &[(u8, u32)],
    events: &[Event],
) -> Result<Vec<u8>, AllocError> {
    let mut bytes = head_of(heap, columns, events.len())?;
    for event in events {
        push_event(&mut bytes, *event)?;
    }
    Ok(bytes)
}

/// A tape's bytes up to its events.
pub(crate) fn head_of(
    heap: Global,
    columns: &[(u8, u32)],
    events: usize,
) -> Result<Vec<u8>, AllocError> {
    let mut bytes = Vec::new(heap);
    bytes.extend_from_slice(&(columns.len() as u64).to_le_bytes()[..2])?;
    bytes.extend_from_slice(&(events as u64).to_le_bytes()[..2])?;
    for (code, flags) in columns {
        bytes.push(*code)?;
        bytes.extend_from_slice(&flags.to_le_bytes())?;
    }
    Ok(bytes)
}

pub(crate) fn push_event(bytes: &mut Vec<u8>, event: Event) -> Result<(), AllocError> {
    match event {
        Event::Row(fields) => {
            bytes.push(0)?;
            for field in fields {
                push_field(bytes, *field)?;
            }
            Ok(())
        }
        Event::Failure(number) => {
            bytes.push(1)?;
            bytes.extend_from_slice(&number.to_le_bytes())
        }
    }
}

fn push_field(bytes: &mut Vec<u8>, field: Field) -> Result<(), AllocError> {
    let (mark, text) = match field {
        Field::Null => return Ok(bytes.push(0)?),
        Field::Held(text) => (1, text),
        Field::Lost(text) => (2, text),
    };
    bytes.push(mark)?;
    bytes.extend_from_slice(&(text.len() as u64).to_le_bytes()[..4])?;
    bytes.extend_from_slice(text)
}
